// Who hears replies, and where they go.
ghost use Rattle.std.specs.Prelude.{◌≡◌};
ghost use Rattle.sw_cmd_protocol.specs.Heard.{Hearing, HearsAll, told_of};

/// What is told of replies.
pub trait Audience<R> {
    ghost State: { Type 0 };

    /// What was heard so far.
    ghost state: { Self → State };

    /// What the hearing of a reply makes of it.
    ghost hears: { Hearing R State };

    /// Hears a reply, behind the others.
    fn hear(&mut self, reply: &R)
        ensures { hears reply.now (state self.old) (state self.new) };
}

/// Where replies go: their bytes into a sink, and then they are told to an audience.
#[derive(Drop)]
pub struct Output<K, T> {
    pub sink: K,
    pub audience: T,
}

/// A reply whose bytes were written is told, where there is one.
pub(crate) fn tell_some<R, T: Audience<R>>(audience: &mut T, reply: &Option<R>)
    ensures { HearsAll T.hears (told_of reply.now) (T.state audience.old) (T.state audience.new) }
{
    if let Some(reply) = reply {
        audience.hear(reply);
    }
}
