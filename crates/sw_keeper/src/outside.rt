// What is outside the bodies, lent for the questions that are no loads.
ghost use Rattle.std.specs.Prelude.{◌≡◌, ◌++◌, ℕ, List, [], length, IfOk, OnErr};
ghost use Rattle.sw_world.specs.Progress.{Running, IsBody, stops, ran_by};
ghost use Rattle.sw_record.specs.Together.{AreTogether};
ghost use Rattle.sw_keeper.specs.Steps.{WentOn};
ghost use Rattle.sw_keeper.specs.Cuts.{RestCut};
ghost use Rattle.sw_keeper.specs.Replays.{AskedTo};

use crate::context::Agreeing;
use std::alloc::Global;
use sw_modules::{Asked, HasSetting, Live, Reader};
use sw_record::{Replayed, replay_all};
use sw_text::Memory;
use sw_world::{Engine, Hosts, Turn};

/// A body goes on up to a load or to its end, and what is outside answers the questions between.
fn go_asked<R: Reader, E: Engine, H: Hosts>(
    alloc: Global,
    _reader: &R,
    asked: &mut Asked<'_, '_, H>,
    engine: &mut E,
    body: &mut E::Body,
) -> Result<Turn, Memory>
    requires runs { (E.progress body.old).status ≡ Running }
    requires is_body { IsBody E.body (E.progress body.old) }
    ensures went { IfOk result (λ _. WentOn ⟦<(R, E, H) as HasSetting>⟧.setting (E.progress body.old)
        (E.progress body.new)
        (record { live = asked.old.live.now; hosts = H.state asked.old.hosts.now })
        (record { live = asked.new.live.now; hosts = H.state asked.new.hosts.now })) }
    ensures same_live { IfOk result (λ _. asked.new.live.ghost_name ≡ asked.old.live.ghost_name) }
    ensures same_hosts { IfOk result (λ _. asked.new.hosts.ghost_name ≡ asked.old.hosts.ghost_name) }
    ensures is_body { IsBody E.body (E.progress body.new) }
    ensures stopped { IfOk result (λ turn. ((E.progress body.new).status ≡ stops turn)
        × ((E.progress body.new).left ≡ [])) }
    ensures ran { IfOk result (λ turn. E.ran engine.new
        ≡ E.ran engine.old ++ ran_by turn (E.progress body.new).job.path) }
    ensures cut { OnErr result (RestCut ⟦<(R, E, H) as HasSetting>⟧.setting (E.progress body.old).job
        ((E.progress body.old).seen ++ (E.progress body.old).left)
        (record { live = asked.old.live.now; hosts = H.state asked.old.hosts.now })
        (record { live = asked.new.live.now; hosts = H.state asked.new.hosts.now })
        (E.ran engine.old) (E.ran engine.new)) }
    ensures err_live { OnErr result (asked.new.live.ghost_name ≡ asked.old.live.ghost_name) }
    ensures err_hosts { OnErr result (asked.new.hosts.ghost_name ≡ asked.old.hosts.ghost_name) }
{
    let turn = engine.go(alloc, body, asked)?;
    Ok(turn)
}

/// A body goes on, over a state and a host that are lent for it.
#[inline(never)]
pub(crate) fn go_outside<R: Reader, E: Engine, H: Hosts>(
    alloc: Global,
    reader: &R,
    live: &mut Live<'_>,
    hosts: &mut H,
    engine: &mut E,
    body: &mut E::Body,
) -> Result<Turn, Memory>
    requires runs { (E.progress body.old).status ≡ Running }
    requires is_body { IsBody E.body (E.progress body.old) }
    ensures went { IfOk result (λ _. WentOn ⟦<(R, E, H) as HasSetting>⟧.setting (E.progress body.old)
        (E.progress body.new)
        (record { live = live.old; hosts = H.state hosts.old })
        (record { live = live.new; hosts = H.state hosts.new })) }
    ensures depth { IfOk result (λ _. length live.new.opened ≡ length live.old.opened) }
    ensures is_body { IsBody E.body (E.progress body.new) }
    ensures stopped { IfOk result (λ turn. ((E.progress body.new).status ≡ stops turn)
        × ((E.progress body.new).left ≡ [])) }
    ensures ran { IfOk result (λ turn. E.ran engine.new
        ≡ E.ran engine.old ++ ran_by turn (E.progress body.new).job.path) }
    ensures cut { OnErr result (RestCut ⟦<(R, E, H) as HasSetting>⟧.setting (E.progress body.old).job
        ((E.progress body.old).seen ++ (E.progress body.old).left)
        (record { live = live.old; hosts = H.state hosts.old })
        (record { live = live.new; hosts = H.state hosts.new })
        (E.ran engine.old) (E.ran engine.new)) }
{
    let mut asked = Asked { live, hosts };
    let turn = go_asked(alloc, reader, &mut asked, engine, body)?;
    Ok(turn)
}

/// The questions of kept runs are asked again from where these have agreed so far.
fn replay_asked<R: Reader, E: Engine, H: Hosts>(
    alloc: Global,
    _reader: &R,
    asked: &mut Asked<'_, '_, H>,
    going: &Agreeing<'_, E>,
) -> Result<Replayed, Memory>
    requires { AreTogether E.body going.now.runs.now going.now.alive going.now.at }
    ensures to { IfOk result (λ replayed. (on : AreTogether E.body going.now.runs.now going.now.alive going.now.at)
        → AskedTo ⟦<(R, E, H) as HasSetting>⟧.setting on.job going.now.runs.now going.now.alive on.first replayed
        (record { live = asked.old.live.now; hosts = H.state asked.old.hosts.now })
        (record { live = asked.new.live.now; hosts = H.state asked.new.hosts.now })) }
    ensures same_live { IfOk result (λ _. asked.new.live.ghost_name ≡ asked.old.live.ghost_name) }
    ensures cut { OnErr result ((on : AreTogether E.body going.now.runs.now going.now.alive going.now.at)
        (told : List (List ℕ)) → RestCut ⟦<(R, E, H) as HasSetting>⟧.setting on.job on.first
        (record { live = asked.old.live.now; hosts = H.state asked.old.hosts.now })
        (record { live = asked.new.live.now; hosts = H.state asked.new.hosts.now }) told told) }
    ensures err_live { OnErr result (asked.new.live.ghost_name ≡ asked.old.live.ghost_name) }
    ensures err_hosts { OnErr result (asked.new.hosts.ghost_name ≡ asked.old.hosts.ghost_name) }
    ensures same_hosts { IfOk result (λ _. asked.new.hosts.ghost_name ≡ asked.old.hosts.ghost_name) }
{
    let replayed = replay_all(alloc, going.runs, going.alive, going.at, asked)?;
    Ok(replayed)
}

/// The questions of kept runs are asked again, of a state and a host that are lent for it.
#[inline(never)]
pub(crate) fn replay_outside<R: Reader, E: Engine, H: Hosts>(
    alloc: Global,
    reader: &R,
    live: &mut Live<'_>,
    hosts: &mut H,
    going: &Agreeing<'_, E>,
) -> Result<Replayed, Memory>
    requires { AreTogether E.body going.now.runs.now going.now.alive going.now.at }
    ensures to { IfOk result (λ replayed. (on : AreTogether E.body going.now.runs.now going.now.alive going.now.at)
        → AskedTo ⟦<(R, E, H) as HasSetting>⟧.setting on.job going.now.runs.now going.now.alive on.first replayed
        (record { live = live.old; hosts = H.state hosts.old })
        (record { live = live.new; hosts = H.state hosts.new })) }
    ensures cut { OnErr result ((on : AreTogether E.body going.now.runs.now going.now.alive going.now.at)
        (told : List (List ℕ)) → RestCut ⟦<(R, E, H) as HasSetting>⟧.setting on.job on.first
        (record { live = live.old; hosts = H.state hosts.old })
        (record { live = live.new; hosts = H.state hosts.new }) told told) }
    ensures depth { IfOk result (λ _. length live.new.opened ≡ length live.old.opened) }
{
    let mut asked = Asked { live, hosts };
    let replayed = replay_asked(alloc, reader, &mut asked, going)?;
    Ok(replayed)
}
