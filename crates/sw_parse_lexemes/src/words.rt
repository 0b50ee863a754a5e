// The words of sheets that are told apart.
ghost use Rattle.std.specs.Prelude.{◌≡◌, ◌≤◌, bytes_eq, length};
ghost use Rattle.sw_parse_lexemes.specs.Words.{of_two, of_three, of_four, of_five, of_six, of_seven, of_nine, word_sort, has_dash, prefix_end, is_prefixed_calc, name_sort, at_one, at_three, at_four, at_five, at_six, at_seven, at_eight, at_nine, at_sort};

use crate::sort::Sort;
use sw_text_scan::{byte_at, signs};

// Most words differ from a known one in their first byte, so this is looked at before all of them are.
#[tactic(auto, using(crate::proofs::Firsts::first_differs))]
fn is_word(word: &str, known: &str) -> bool
    ensures { result ≡ bytes_eq word.now known.now }
{
    byte_at(word.as_bytes(), 0) == byte_at(known.as_bytes(), 0) && word == known
}

fn of_two(word: &str) -> Sort
    ensures { result ≡ of_two word.now }
{
    if is_word(word, "or") {
        Sort::Or
    } else if is_word(word, "as") {
        Sort::As
    } else if is_word(word, "if") {
        Sort::If
    } else if is_word(word, "in") {
        Sort::In
    } else if is_word(word, "to") {
        Sort::To
    } else {
        Sort::Name
    }
}

fn of_three(word: &str) -> Sort
    ensures { result ≡ of_three word.now }
{
    if is_word(word, "and") {
        Sort::And
    } else if is_word(word, "not") {
        Sort::Not
    } else if is_word(word, "var") {
        Sort::Special
    } else if is_word(word, "env") {
        Sort::Special
    } else if is_word(word, "min") {
        Sort::Special
    } else if is_word(word, "max") {
        Sort::Special
    } else if is_word(word, "mod") {
        Sort::Stays
    } else if is_word(word, "rem") {
        Sort::Stays
    } else if is_word(word, "abs") {
        Sort::Stays
    } else if is_word(word, "sin") {
        Sort::Stays
    } else if is_word(word, "cos") {
        Sort::Stays
    } else if is_word(word, "tan") {
        Sort::Stays
    } else if is_word(word, "pow") {
        Sort::Stays
    } else if is_word(word, "log") {
        Sort::Stays
    } else if is_word(word, "exp") {
        Sort::Stays
    } else {
        Sort::Name
    }
}

fn of_four(word: &str) -> Sort
    ensures { result ≡ of_four word.now }
{
    if is_word(word, "true") {
        Sort::True
    } else if is_word(word, "null") {
        Sort::Null
    } else if is_word(word, "with") {
        Sort::With
    } else if is_word(word, "show") {
        Sort::Show
    } else if is_word(word, "hide") {
        Sort::Hide
    } else if is_word(word, "from") {
        Sort::From
    } else if is_word(word, "only") {
        Sort::Only
    } else if is_word(word, "calc") {
        Sort::Special
    } else if is_word(word, "sign") {
        Sort::Stays
    } else if is_word(word, "asin") {
        Sort::Stays
    } else if is_word(word, "acos") {
        Sort::Stays
    } else if is_word(word, "atan") {
        Sort::Stays
    } else if is_word(word, "sqrt") {
        Sort::Stays
    } else {
        Sort::Name
    }
}

fn of_five(word: &str) -> Sort
    ensures { result ≡ of_five word.now }
{
    if is_word(word, "false") {
        Sort::False
    } else if is_word(word, "using") {
        Sort::Using
    } else if is_word(word, "clamp") {
        Sort::Special
    } else if is_word(word, "round") {
        Sort::Stays
    } else if is_word(word, "atan2") {
        Sort::Stays
    } else if is_word(word, "hypot") {
        Sort::Stays
    } else {
        Sort::Name
    }
}

fn of_six(word: &str) -> Sort
    ensures { result ≡ of_six word.now }
{
    if is_word(word, "global") {
        Sort::Global
    } else {
        Sort::Name
    }
}

fn of_seven(word: &str) -> Sort
    ensures { result ≡ of_seven word.now }
{
    if is_word(word, "through") {
        Sort::Through
    } else if is_word(word, "default") {
        Sort::Default
    } else {
        Sort::Name
    }
}

fn of_nine(word: &str) -> Sort
    ensures { result ≡ of_nine word.now }
{
    if is_word(word, "important") {
        Sort::Important
    } else {
        Sort::Name
    }
}

pub(crate) fn word_sort(word: &str) -> Sort
    ensures { result ≡ word_sort word.now }
{
    if word.len() == 2 {
        of_two(word)
    } else if word.len() == 3 {
        of_three(word)
    } else if word.len() == 4 {
        of_four(word)
    } else if word.len() == 5 {
        of_five(word)
    } else if word.len() == 6 {
        of_six(word)
    } else if word.len() == 7 {
        of_seven(word)
    } else if word.len() == 9 {
        of_nine(word)
    } else {
        Sort::Name
    }
}

#[tactic(auto, unfolding(crate::specs::Words::has_dash))]
fn has_dash(name: &[u8], from: usize, to: usize) -> bool
    requires { to ≤ length name.now }
    ensures { result ≡ has_dash name.now from to }
{
    if from < to {
        name[from..to].contains(&b'-')
    } else {
        false
    }
}

fn prefix_end(name: &[u8]) -> usize
    ensures { result ≡ prefix_end name.now }
{
    name.len().saturating_sub(b"-calc".len())
}

fn is_prefixed_calc(name: &[u8]) -> bool
    ensures { result ≡ is_prefixed_calc name.now }
{
    let end = prefix_end(name);
    1 < end
        && byte_at(name, 0) == signs::MINUS
        && name.ends_with(b"-calc")
        && !has_dash(name, 1, end)
}

pub(crate) fn name_sort(name: &str) -> Sort
    ensures { result ≡ name_sort name.now }
{
    if is_prefixed_calc(name.as_bytes()) {
        Sort::Special
    } else {
        Sort::Name
    }
}

fn at_one(word: &str) -> Sort
    ensures { result ≡ at_one word.now }
{
    if word == "=" {
        Sort::AtMixin
    } else if word == "+" {
        Sort::AtInclude
    } else {
        Sort::AtName
    }
}

fn at_three(word: &str) -> Sort
    ensures { result ≡ at_three word.now }
{
    if word == "@if" {
        Sort::AtIf
    } else {
        Sort::AtName
    }
}

fn at_four(word: &str) -> Sort
    ensures { result ≡ at_four word.now }
{
    if word == "@use" {
        Sort::AtUse
    } else if word == "@for" {
        Sort::AtFor
    } else {
        Sort::AtName
    }
}

fn at_five(word: &str) -> Sort
    ensures { result ≡ at_five word.now }
{
    if word == "@warn" {
        Sort::AtWarn
    } else if word == "@else" {
        Sort::AtElse
    } else if word == "@each" {
        Sort::AtEach
    } else {
        Sort::AtName
    }
}

fn at_six(word: &str) -> Sort
    ensures { result ≡ at_six word.now }
{
    if word == "@mixin" {
        Sort::AtMixin
    } else if word == "@debug" {
        Sort::AtDebug
    } else if word == "@error" {
        Sort::AtError
    } else if word == "@while" {
        Sort::AtWhile
    } else if word == "@media" {
        Sort::AtMedia
    } else {
        Sort::AtName
    }
}

fn at_seven(word: &str) -> Sort
    ensures { result ≡ at_seven word.now }
{
    if word == "@return" {
        Sort::AtReturn
    } else if word == "@elseif" {
        Sort::AtElseIf
    } else if word == "@import" {
        Sort::AtImport
    } else if word == "@extend" {
        Sort::AtExtend
    } else {
        Sort::AtName
    }
}

fn at_eight(word: &str) -> Sort
    ensures { result ≡ at_eight word.now }
{
    if word == "@forward" {
        Sort::AtForward
    } else if word == "@include" {
        Sort::AtInclude
    } else if word == "@content" {
        Sort::AtContent
    } else if word == "@at-root" {
        Sort::AtRoot
    } else if word == "@charset" {
        Sort::AtCharset
    } else {
        Sort::AtName
    }
}

fn at_nine(word: &str) -> Sort
    ensures { result ≡ at_nine word.now }
{
    if word == "@function" {
        Sort::AtFunction
    } else if word == "@supports" {
        Sort::AtSupports
    } else {
        Sort::AtName
    }
}

pub(crate) fn at_sort(word: &str) -> Sort
    ensures { result ≡ at_sort word.now }
{
    if word.len() == 1 {
        at_one(word)
    } else if word.len() == 3 {
        at_three(word)
    } else if word.len() == 4 {
        at_four(word)
    } else if word.len() == 5 {
        at_five(word)
    } else if word.len() == 6 {
        at_six(word)
    } else if word.len() == 7 {
        at_seven(word)
    } else if word.len() == 8 {
        at_eight(word)
    } else if word.len() == 9 {
        at_nine(word)
    } else {
        Sort::AtName
    }
}
