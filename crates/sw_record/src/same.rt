// What two runs have in common.
ghost use Rattle.std.specs.Prelude.{◌≡◌, ◌↔◌, IsTrue};
ghost use Rattle.sw_world.specs.Body.{answers};
ghost use Rattle.sw_record.specs.Kept.{job_of};

use crate::Run;
use sw_text::Name;
use sw_values::Value;
use sw_world::{Config, Engine, Pairs};

/// Whether a run is of this text and this configuration. Takes no memory.
pub fn is_alike<E: Engine>(run: &Run<E>, text: &Name, config: &Config) -> bool
    ensures { IsTrue result ↔ ((run.now.run.text ≡ text.now) × (run.now.run.config ≡ config.now)) }
{
    run.text().same(text) && same_config(run.config(), config)
}

/// Whether two runs of one body have the same pairs. On the same answers it asks the same, so these alone are looked
/// at. Takes no memory.
pub fn has_same_pairs<E: Engine>(run: &Run<E>, other: &Run<E>) -> bool
    requires { job_of run.now ≡ job_of other.now }
    ensures pairs { IsTrue result ↔ (run.now.run.seen ≡ other.now.run.seen) }
    ensures end { IsTrue result → run.now.run.end ≡ other.now.run.end }
{
    let seen = run.seen();
    let others = other.seen();
    same_answers(seen, others)
}

fn same_answers(a: &Pairs, b: &Pairs) -> bool
    ensures { IsTrue result ↔ (answers a.now ≡ answers b.now) }
{
    if a.len() != b.len() {
        return false;
    }
    for at in 0..a.len() {
        if !a.pair(at).1.same(&b.pair(at).1) {
            return false;
        }
    }
    true
}

fn same_config(a: &Config, b: &Config) -> bool
    ensures { IsTrue result ↔ (a.now ≡ b.now) }
{
    same_entries(a.get().as_slice(), b.get().as_slice())
}

fn same_entries(a: &[(Name, Value)], b: &[(Name, Value)]) -> bool
    ensures { IsTrue result ↔ (a.now ≡ b.now) }
{
    if a.len() != b.len() {
        return false;
    }
    for i in 0..a.len() {
        if !same_entry(&a[i], &b[i]) {
            return false;
        }
    }
    true
}

fn same_entry(a: &(Name, Value), b: &(Name, Value)) -> bool
    ensures { IsTrue result ↔ (a.now ≡ b.now) }
{
    a.0.same(&b.0) && a.1.same(&b.1)
}
