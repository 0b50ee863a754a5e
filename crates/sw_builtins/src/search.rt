// Looking a name up among rows in the order of the alphabet.
ghost use Rattle.std.specs.Prelude.{◌≡◌, true, map};
ghost use Rattle.std.specs.Ordering.{nat_cmp};
ghost use Rattle.std.specs.Cmp.Lexicographic.{slice_cmp};
ghost use Rattle.sw_builtins.specs.Tables.{same_kind as same_kind_of, of_kind as found_of_kind, found_in, names_rise};

use crate::Found;
use std::cmp::Ordering;
use sw_tree::Kind;

fn same_kind(kind: Kind, other: Kind) -> bool
    ensures { result ≡ same_kind_of kind other }
{
    match kind {
        Kind::Variable => match other {
            Kind::Variable => true,
            Kind::Function => false,
            Kind::Mixin => false,
        },
        Kind::Function => match other {
            Kind::Variable => false,
            Kind::Function => true,
            Kind::Mixin => false,
        },
        Kind::Mixin => match other {
            Kind::Variable => false,
            Kind::Function => false,
            Kind::Mixin => true,
        },
    }
}

fn of_kind(kind: Kind, other: Kind, meaning: Found) -> Found
    ensures { result ≡ found_of_kind kind other meaning }
{
    if same_kind(kind, other) {
        meaning
    } else {
        Found::NoSuch
    }
}

/// The order of two names.
fn order(name: &[u8], other: &[u8]) -> Ordering
    ensures { result ≡ slice_cmp nat_cmp name.now other.now }
{
    let [letter, name @ ..] = name else {
        return match other {
            [] => Ordering::Equal,
            _ => Ordering::Less,
        };
    };
    let [byte, other @ ..] = other else {
        return Ordering::Greater;
    };
    match letter.cmp(byte) {
        Ordering::Equal => order(name, other),
        unequal => unequal,
    }
}

/// What a name of a kind means, among rows in the order of the alphabet.
pub(crate) fn search(rows: &[(&str, Kind, Found)], kind: Kind, name: &[u8]) -> Found
    requires { names_rise (map (λ row. (row.0.now, row.1, row.2)) rows.now) ≡ true }
    ensures { result ≡ found_in (map (λ row. (row.0.now, row.1, row.2)) rows.now) kind name.now }
{
    let by_name = |row: &(&str, Kind, Found)| -> Ordering
        ensures { result ≡ slice_cmp nat_cmp row.now.0.now name.entry.now }
    { order(row.0.as_bytes(), name) };
    match rows.binary_search_by(by_name) {
        Ok(at) => {
            let row = rows[at];
            of_kind(kind, row.1, row.2)
        }
        Err(_) => Found::NoSuch,
    }
}
