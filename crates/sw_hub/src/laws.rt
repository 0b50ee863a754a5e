// What follows for those who are attached.
ghost use Rattle.std.specs.Prelude.{List};
ghost use Rattle.sw_record.specs.declared.reply.Reply.{Reply};
ghost use Rattle.sw_cmd_protocol.specs.Heard.{HearsAll};
ghost use Rattle.sw_hub.specs.Hubs.{Attached, HubTells, AllAttend};

/// Where some replies were told one after the other, all stay attached. One that was silent is as before. Each other
/// one has heard them all, in order, behind what it had heard, or it is silent now: then it has heard the first of
/// them, and its own count of faults rose by one. No number was given.
pub fn all_attend()
    ensures { (replies : List Reply) (before now : Attached) → HearsAll HubTells replies before now
        → AllAttend replies before now }
{}
