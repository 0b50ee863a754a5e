// Which command the words of a command line ask for.
ghost use Rattle.std.specs.Prelude.{◌≡◌, option_map};
ghost use Rattle.std.specs.List.{list_all};
ghost use Rattle.sw_cmd_line.specs.Forms.{form_of, form_by, form_seen, named, Once, Poll, make_by, convert_by, convert_between, target_of, target_seen, alone, is_target, is_load_path, is_plain};

use crate::number::read_number;
use crate::syntax::syntax_of;
use crate::{Conversion, Syntax};
use sw_folder::is_path;
use sw_text::Name;

const MOST_PATHS: usize = 8;

/// What is compiled.
#[derive(Clone, Copy, Debug)]
pub struct Target<'a> {
    /// The disk's folder.
    pub dir: &'a Name,
    /// A file of the folder.
    pub entry: &'a Name,
    /// The load paths in the folder, at most eight.
    pub paths: &'a [Name],
}

/// What the program is to do.
#[derive(Clone, Copy, Debug)]
pub enum Command<'a> {
    /// Answers the requests of a session, in which sheets call no functions of a host.
    Session,
    /// Answers the requests of a session, in which sheets call the functions of the host.
    Hosted,
    /// Answers requests of which compiles go on by steps.
    Steps,
    /// Compiles once and writes the CSS.
    Once(Target<'a>),
    /// Compiles whenever it is asked to.
    Poll(Target<'a>),
    /// Makes the workload of this number.
    Make(u32),
    /// Writes a sheet in another syntax.
    Convert(Conversion),
}

/// The command that the words behind the program's name ask for: `session`, `hosted`, `steps`,
/// `once DIR ENTRY LOAD..`, `poll DIR ENTRY LOAD..` with at most eight LOAD, where DIR isn't empty, ENTRY is a path of
/// a folder, each LOAD is one or `.`, `make N` with one to six digits and no 0 before others, or `convert FROM TO`, each
/// `scss` or `sass`; and no word begins with `-`. `None` exactly where the words are in none of these forms. Takes no
/// memory.
#[tactic(auto, unfolding(crate::specs::Forms::form_of))]
pub fn command_of<'a>(words: &'a [Name]) -> Option<Command<'a>>
    ensures { option_map form_seen result ≡ form_of words.now }
{
    if !all_plain(words) {
        return None;
    }
    match words {
        [] => None,
        [name, rest @ ..] => named(name.as_str(), rest),
    }
}

fn named<'a>(name: &str, words: &'a [Name]) -> Option<Command<'a>>
    ensures { option_map form_seen result ≡ named name.now words.now }
{
    if name == "session" {
        alone(Command::Session, words)
    } else if name == "hosted" {
        alone(Command::Hosted, words)
    } else if name == "steps" {
        alone(Command::Steps, words)
    } else if name == "once" {
        once(target_in(words))
    } else if name == "poll" {
        poll(target_in(words))
    } else if name == "make" {
        make(words)
    } else if name == "convert" {
        convert(words)
    } else {
        None
    }
}

fn alone<'a>(command: Command<'a>, words: &'a [Name]) -> Option<Command<'a>>
    ensures { option_map form_seen result ≡ alone (form_seen command.entry) words.now }
{
    match words {
        [] => Some(command),
        [_, ..] => None,
    }
}

fn once<'a>(target: Option<Target<'a>>) -> Option<Command<'a>>
    ensures { option_map form_seen result ≡ option_map Once (option_map target_seen target.entry) }
{
    match target {
        None => None,
        Some(target) => Some(Command::Once(target)),
    }
}

fn poll<'a>(target: Option<Target<'a>>) -> Option<Command<'a>>
    ensures { option_map form_seen result ≡ option_map Poll (option_map target_seen target.entry) }
{
    match target {
        None => None,
        Some(target) => Some(Command::Poll(target)),
    }
}

fn make<'a>(words: &'a [Name]) -> Option<Command<'a>>
    ensures { option_map form_seen result ≡ make_by words.now }
{
    match words {
        [word] => match read_number(word.as_str().as_bytes()) {
            None => None,
            Some(number) => Some(Command::Make(number)),
        },
        _ => None,
    }
}

fn convert<'a>(words: &[Name]) -> Option<Command<'a>>
    ensures { option_map form_seen result ≡ convert_by words.now }
{
    match words {
        [from, to] => between(syntax_of(from.as_str()), syntax_of(to.as_str())),
        _ => None,
    }
}

fn between<'a>(from: Option<Syntax>, to: Option<Syntax>) -> Option<Command<'a>>
    ensures { option_map form_seen result ≡ convert_between from to }
{
    match (from, to) {
        (Some(from), Some(to)) => Some(Command::Convert(Conversion { from, to })),
        (Some(_) | None, None) | (None, Some(_)) => None,
    }
}

fn target_in<'a>(words: &'a [Name]) -> Option<Target<'a>>
    ensures { option_map target_seen result ≡ target_of words.now }
{
    match words {
        [dir, entry, paths @ ..] => {
            if is_target(dir.as_str(), entry.as_str(), paths) {
                Some(Target { dir, entry, paths })
            } else {
                None
            }
        }
        _ => None,
    }
}

fn is_target(dir: &str, entry: &str, paths: &[Name]) -> bool
    ensures { result ≡ is_target dir.now entry.now paths.now }
{
    !dir.is_empty() && is_path(entry) && paths.len() <= MOST_PATHS && all_load_paths(paths)
}

fn all_load_paths(paths: &[Name]) -> bool
    ensures { result ≡ list_all is_load_path paths.now }
{
    for path in paths {
        if !is_load_path(path.as_str()) {
            return false;
        }
    }
    true
}

fn is_load_path(text: &str) -> bool
    ensures { result ≡ is_load_path text.now }
{
    text == "." || is_path(text)
}

fn all_plain(words: &[Name]) -> bool
    ensures { result ≡ list_all is_plain words.now }
{
    for word in words {
        if !is_plain(word.as_str().as_bytes()) {
            return false;
        }
    }
    true
}

// whether a word doesn't begin like an option
fn is_plain(word: &[u8]) -> bool
    ensures { result ≡ is_plain word.now }
{
    match word {
        [] => true,
        [first, ..] => *first != b'-',
    }
}
