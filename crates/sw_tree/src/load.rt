// Statements that load modules (Sass specification, `@use` and `@forward`).
use crate::Expr;
use sw_text::{List, Name, Span};

/// `@use "url" as namespace with (..)`
pub struct Use {
    pub url: Url,
    pub namespace: Namespace,
    /// The variables that the load configures, in order. Without `with` there are none.
    pub configuration: List<Given>,
    pub span: Span,
}

impl Drop for Use {
    fn drop(self) {
        let Use {
            url: _,
            namespace: _,
            configuration: _,
            span: _,
        } = self;
    }
}

/// `@forward "url" as prefix* show .. with (..)`
pub struct Forward {
    pub url: Url,
    /// The prefix as the sheet writes it.
    pub prefix: Option<Name>,
    pub filter: Filter,
    /// The variables that the load configures, in order. Without `with` there are none.
    pub configuration: List<Given>,
    pub span: Span,
}

impl Drop for Forward {
    fn drop(self) {
        let Forward {
            url: _,
            prefix: _,
            filter: _,
            configuration: _,
            span: _,
        } = self;
    }
}

/// The address of a load.
pub struct Url {
    /// The text that the string stands for.
    pub text: Name,
    /// Where the string stands, with its quotes.
    pub span: Span,
}

impl Drop for Url {
    fn drop(self) {
        let Url { text: _, span: _ } = self;
    }
}

/// The namespace under which a loaded module's members are written.
pub enum Namespace {
    /// No `as` is written: the default namespace of the URL.
    Default(Name),
    /// The name behind `as`.
    Written(Name),
    /// `as *`
    Without,
}

impl Drop for Namespace {
    fn drop(self) {
        match self {
            Namespace::Default(_) => {}
            Namespace::Written(_) => {}
            Namespace::Without => {}
        }
    }
}

/// `$name: value` in the configuration of a load.
pub struct Given {
    /// The name without `$`, with `-` for each `_`.
    pub name: Name,
    /// Where `$name` stands.
    pub name_span: Span,
    pub value: Expr,
    /// `!default` is written.
    pub default: bool,
}

impl Drop for Given {
    fn drop(self) {
        let Given {
            name: _,
            name_span: _,
            value: _,
            default: _,
        } = self;
    }
}

/// A name behind `show` or `hide`.
pub struct Member {
    /// It is the name of a variable, and not of functions and mixins.
    pub variable: bool,
    /// The name without `$`, with `-` for each `_`.
    pub name: Name,
}

impl Drop for Member {
    fn drop(self) {
        let Member {
            variable: _,
            name: _,
        } = self;
    }
}

/// Which members of a module are passed on.
pub enum Filter {
    All,
    Show(List<Member>),
    Hide(List<Member>),
}

impl Drop for Filter {
    fn drop(self) {
        match self {
            Filter::All => {}
            Filter::Show(_) => {}
            Filter::Hide(_) => {}
        }
    }
}
