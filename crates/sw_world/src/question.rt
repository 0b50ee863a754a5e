// Questions to the outside.
ghost use Rattle.std.specs.Prelude.{◌≡◌, IfOk, IsTrue, ◌↔◌};
ghost use Rattle.sw_world.specs.Questions.{IsLoad};

use crate::parts::share_name;
use sw_text::{List, Memory, Name, Shared, Span};
use sw_tree::Kind;
use sw_values::Value;

/// What a message is.
#[derive(Clone, Copy, Debug, PartialEq, Eq)]
pub enum SayKind {
    Warn,
    Debug,
    Fatal,
}

/// A message that a body said.
pub struct Saying {
    pub kind: SayKind,
    pub span: Span,
    pub text: Name,
}

impl Drop for Saying {
    fn drop(self) {
        let Saying {
            kind: _,
            span: _,
            text: _,
        } = self;
    }
}

/// A member that `show` or `hide` names.
pub struct Member {
    /// It is named with `$`.
    pub variable: bool,
    pub name: Name,
}

impl Drop for Member {
    fn drop(self) {
        let Member {
            variable: _,
            name: _,
        } = self;
    }
}

/// Which members a forward lets through.
pub enum Filter {
    All,
    Show(Shared<List<Member>>),
    Hide(Shared<List<Member>>),
}

impl Drop for Filter {
    fn drop(self) {
        match self {
            Filter::All => {}
            Filter::Show(_) => {}
            Filter::Hide(_) => {}
        }
    }
}

/// How a module is loaded.
pub enum How {
    /// Its members are written behind this namespace; without one, as the sheet's own (`as *`).
    Use { space: Option<Name> },
    /// Its members become the loading module's, with this prefix.
    Forward { prefix: Name, filter: Filter },
}

impl Drop for How {
    fn drop(self) {
        match self {
            How::Use { space: _ } => {}
            How::Forward {
                prefix: _,
                filter: _,
            } => {}
        }
    }
}

/// A value that a load gives to the loaded module.
pub struct Given {
    pub name: Name,
    pub value: Value,
    pub span: Span,
    /// It stands in a `with`.
    pub explicit: bool,
}

impl Drop for Given {
    fn drop(self) {
        let Given {
            name: _,
            value: _,
            span: _,
            explicit: _,
        } = self;
    }
}

/// A question to the outside.
pub enum Question {
    /// Loads the module at a URL for the module at `site`.
    Load {
        site: Name,
        url: Name,
        span: Span,
        how: How,
        config: Shared<List<Given>>,
    },
    /// What a name means in the module at `site`, behind a namespace or without one.
    Find {
        site: Name,
        space: Option<Name>,
        kind: Kind,
        name: Name,
    },
    /// The value of a loaded module's variable.
    Get {
        owner: Name,
        name: Name,
    },
    /// Gives a loaded module's variable a value.
    Put {
        owner: Name,
        name: Name,
        value: Value,
    },
    /// Says a message.
    Say {
        kind: SayKind,
        span: Span,
        text: Name,
    },
    /// Calls a function of the host.
    Call {
        name: Name,
        args: Shared<List<Value>>,
    },
}

impl Drop for Question {
    fn drop(self) {
        match self {
            Question::Load {
                site: _,
                url: _,
                span: _,
                how: _,
                config: _,
            } => {}
            Question::Find {
                site: _,
                space: _,
                kind: _,
                name: _,
            } => {}
            Question::Get { owner: _, name: _ } => {}
            Question::Put {
                owner: _,
                name: _,
                value: _,
            } => {}
            Question::Say {
                kind: _,
                span: _,
                text: _,
            } => {}
            Question::Call { name: _, args: _ } => {}
        }
    }
}

impl Filter {
    /// One more owner of its parts, in constant time.
    pub fn share(&self) -> Result<Filter, Memory>
        ensures { IfOk result (λ filter. filter ≡ self.now) }
    {
        match self {
            Filter::All => Ok(Filter::All),
            Filter::Show(members) => Ok(Filter::Show(members.share()?)),
            Filter::Hide(members) => Ok(Filter::Hide(members.share()?)),
        }
    }
}

impl How {
    /// One more owner of its parts, in constant time.
    pub fn share(&self) -> Result<How, Memory>
        ensures { IfOk result (λ how. how ≡ self.now) }
    {
        match self {
            How::Use { space } => Ok(How::Use {
                space: share_name(space)?,
            }),
            How::Forward { prefix, filter } => Ok(How::Forward {
                prefix: prefix.share()?,
                filter: filter.share()?,
            }),
        }
    }
}

impl Question {
    /// Whether it asks for a module.
    pub fn is_load(&self) -> bool
        ensures { IsTrue result ↔ IsLoad self.now }
    {
        matches!(self, Question::Load { .. })
    }

    /// One more owner of its parts, in constant time.
    pub fn share(&self) -> Result<Question, Memory>
        ensures { IfOk result (λ op. op ≡ self.now) }
    {
        match self {
            Question::Load {
                site,
                url,
                span,
                how,
                config,
            } => Ok(Question::Load {
                site: site.share()?,
                url: url.share()?,
                span: span.share()?,
                how: how.share()?,
                config: config.share()?,
            }),
            Question::Find {
                site,
                space,
                kind,
                name,
            } => Ok(Question::Find {
                site: site.share()?,
                space: share_name(space)?,
                kind: *kind,
                name: name.share()?,
            }),
            Question::Get { owner, name } => Ok(Question::Get {
                owner: owner.share()?,
                name: name.share()?,
            }),
            Question::Put { owner, name, value } => Ok(Question::Put {
                owner: owner.share()?,
                name: name.share()?,
                value: value.share()?,
            }),
            Question::Say { kind, span, text } => Ok(Question::Say {
                kind: *kind,
                span: span.share()?,
                text: text.share()?,
            }),
            Question::Call { name, args } => Ok(Question::Call {
                name: name.share()?,
                args: args.share()?,
            }),
        }
    }
}
