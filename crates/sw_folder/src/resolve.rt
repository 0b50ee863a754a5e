// Which file a URL means.
ghost use Rattle.std.specs.Prelude.{◌≡◌, ◌∷◌, ◌++◌, [], None, Some, Ok, nat_eq, if◌then◌else◌, IfOk, IfErr, IfSome, map, codes, string_bytes};
ghost use Rattle.std.specs.List.{ends_with};
ghost use Rattle.sw_folder.specs.Paths.{segments};
ghost use Rattle.sw_folder.specs.Resolution.{IsResolution, bases, both, both_choices, choice, first_choice, folder_text, groups, groups_at, groups_from, has_extension, name_groups, or_not_found, present, resolved, sheets, step, up, walk, IsLone};

use crate::folder::Folder;
use crate::path::{ends_with, first_segment, is_dot, is_dot_dot};
use smallvec::SmallVec;
use std::alloc::{AllocError, AllocFailed};
use sw_text::{Memory, Name};
use thiserror::Error;

/// Why a URL means no file, and want of memory.
#[derive(Clone, Copy, Debug, PartialEq, Eq, Error)]
pub enum ResolveFault {
    #[error("the URL means no file")]
    NotFound,
    #[error("the URL means several files")]
    Ambiguous,
    #[error("out of memory")]
    Memory,
}

impl From<AllocError> for ResolveFault {
    ghost use Rattle.std.specs.Prelude.{◌≡◌};
    ghost use Rattle.sw_folder.specs.declared.resolve.ResolveFault.TheVariants.{Memory};

    ghost from_gives = { λ _ fault. fault ≡ Memory };

    fn from(_: AllocError) -> Self {
        ResolveFault::Memory
    }
}

impl<T: Drop> From<AllocFailed<T>> for ResolveFault {
    ghost use Rattle.std.specs.Prelude.{◌≡◌};
    ghost use Rattle.sw_folder.specs.declared.resolve.ResolveFault.TheVariants.{Memory};

    ghost from_gives = { λ _ fault. fault ≡ Memory };

    fn from(_: AllocFailed<T>) -> Self {
        ResolveFault::Memory
    }
}

impl From<Memory> for ResolveFault {
    ghost use Rattle.std.specs.Prelude.{◌≡◌};
    ghost use Rattle.sw_folder.specs.declared.resolve.ResolveFault.TheVariants as variant;

    ghost from_gives = { λ _ fault. fault ≡ variant.Memory };

    fn from(_: Memory) -> Self {
        ResolveFault::Memory
    }
}

/// Room for most paths.
const PATH_ROOM: usize = 64;

/// The segments of a place in the folder; few paths have more than eight.
type Place<'a> = SmallVec<&'a str, 8>;

impl Folder {
    /// The path of the file that a URL means in the sheet `from`: the URL is joined to the folder of that sheet, then
    /// to each load path in order, where `.` is the folder itself. Of each, these groups of files are looked for in
    /// order, and the first group of which a file exists decides: with the extension `.sass`, `.scss` or `.css` the
    /// file, with or without `_` before its name; else `.sass` and `.scss`, then `.css`, then `.sass` and `.scss` of
    /// `index`, then `.css` of `index`, each with or without `_`. `Ambiguous` where two files of a group exist,
    /// `NotFound` where no group has one.
    pub fn resolve(&self, from: &str, url: &str, paths: &[Name]) -> Result<Name, ResolveFault>
        ensures { IsResolution result (resolved self.now from.now url.now paths.now) }
    {
        or_not_found(self.on_bases(from, url, paths))
    }

    fn on_bases(&self, from: &str, url: &str, paths: &[Name]) -> Result<Option<Name>, ResolveFault>
        ensures { IsResolution result (first_choice self.now (groups_from url.now (bases from.now paths.now))) }
    {
        match self.beside(from, url) {
            Ok(None) => self.on_paths(url, paths),
            Ok(Some(found)) => Ok(Some(found)),
            Err(fault) => Err(fault),
        }
    }

    fn beside(&self, from: &str, url: &str) -> Result<Option<Name>, ResolveFault>
        ensures { IsResolution result (first_choice self.now
            (groups_at (walk [] ((segments from.now ++ codes ".." ∷ []) ++ segments url.now)))) }
    {
        if let (Some(_), Some(name)) = (lone(from), lone(url)) {
            return self.named(String::new(self.allocator()), name);
        }
        self.beside_walked(from, url)
    }

    fn beside_walked(&self, from: &str, url: &str) -> Result<Option<Name>, ResolveFault>
        ensures { IsResolution result (first_choice self.now
            (groups_at (walk [] ((segments from.now ++ codes ".." ∷ []) ++ segments url.now)))) }
    {
        let mut place = Place::new(self.allocator());
        if !walk(&mut place, from)? {
            return Ok(None);
        }
        if !go_up(&mut place) {
            return Ok(None);
        }
        self.further(&mut place, url)
    }

    fn further<'a>(&self, place: &mut Place<'a>, url: &'a str) -> Result<Option<Name>, ResolveFault>
        ensures { IsResolution result (first_choice self.now
            (groups_at (walk (map (λ segment. segment.now) place.old.items) (segments url.now)))) }
    {
        if !walk(place, url)? {
            return Ok(None);
        }
        self.at(place.as_slice())
    }

    fn on_path(&self, base: &str, url: &str) -> Result<Option<Name>, ResolveFault>
        ensures { IsResolution result (first_choice self.now
            (groups_at (walk [] (segments base.now ++ segments url.now)))) }
    {
        let mut place = Place::new(self.allocator());
        if !walk(&mut place, base)? {
            return Ok(None);
        }
        self.further(&mut place, url)
    }

    fn on_paths(&self, url: &str, paths: &[Name]) -> Result<Option<Name>, ResolveFault>
        ensures { IsResolution result (first_choice self.now (groups_from url.now (map segments paths.now))) }
    {
        for path in paths {
            match self.on_path(path.as_str(), url) {
                Ok(None) => {}
                Ok(Some(found)) => return Ok(Some(found)),
                Err(fault) => return Err(fault),
            }
        }
        Ok(None)
    }

    fn at(&self, place: &[&str]) -> Result<Option<Name>, ResolveFault>
        ensures { IsResolution result (first_choice self.now
            (groups_at (Some (map (λ segment. segment.now) place.now)))) }
    {
        match place.split_last() {
            None => Ok(None),
            Some((name, folders)) => {
                let folder = self.folder_text(folders)?;
                self.named(folder, name)
            }
        }
    }

    fn folder_text(&self, folders: &[&str]) -> Result<String, AllocError>
        ensures { IfOk result (λ text. string_bytes text ≡ folder_text (map (λ segment. segment.now) folders.now)) }
    {
        let mut text = String::new(self.allocator());
        for folder in folders {
            text.push_str(folder)?;
            text.push_str("/")?;
        }
        Ok(text)
    }

    fn named(&self, mut folder: String, name: &str) -> Result<Option<Name>, ResolveFault>
        ensures { IsResolution result (first_choice self.now (groups (string_bytes folder) name.now)) }
    {
        let mut path = String::with_capacity(self.allocator(), PATH_ROOM)?;
        if has_extension(name) {
            return self.both(&mut path, folder.as_str(), name, "");
        }
        match self.without_extension(&mut path, folder.as_str(), name) {
            Ok(None) => {
                folder.push_str(name)?;
                folder.push_str("/")?;
                self.without_extension(&mut path, folder.as_str(), "index")
            }
            Ok(Some(found)) => Ok(Some(found)),
            Err(fault) => Err(fault),
        }
    }

    fn without_extension(
        &self,
        path: &mut String,
        folder: &str,
        name: &str,
    ) -> Result<Option<Name>, ResolveFault>
        ensures { IsResolution result (first_choice self.now (name_groups folder.now name.now)) }
    {
        match self.sheets(path, folder, name) {
            Ok(None) => self.both(path, folder, name, ".css"),
            Ok(Some(found)) => Ok(Some(found)),
            Err(fault) => Err(fault),
        }
    }

    fn sheets(
        &self,
        path: &mut String,
        folder: &str,
        name: &str,
    ) -> Result<Option<Name>, ResolveFault>
        ensures { IsResolution result (choice (present self.now (sheets folder.now name.now))) }
    {
        let sass = self.indented(path, folder, name)?;
        let scss = self.both(path, folder, name, ".scss")?;
        one_of(sass, scss)
    }

    // Those in the indented syntax, if a path may be one of it.
    fn indented(
        &self,
        path: &mut String,
        folder: &str,
        name: &str,
    ) -> Result<Option<Name>, ResolveFault>
        ensures { IsResolution result (choice (present self.now (both folder.now name.now (codes ".sass")))) }
    {
        if self.may_be_indented() {
            self.both(path, folder, name, ".sass")
        } else {
            Ok(None)
        }
    }

    fn both(
        &self,
        path: &mut String,
        folder: &str,
        name: &str,
        ending: &str,
    ) -> Result<Option<Name>, ResolveFault>
        ensures { IsResolution result (choice (present self.now (both folder.now name.now ending.now))) }
    {
        let plain = self.candidate(path, folder, "", name, ending)?;
        let partial = self.partial(path, folder, name, ending)?;
        one_of(plain, partial)
    }

    // The partial, if a path may be one.
    fn partial(
        &self,
        path: &mut String,
        folder: &str,
        name: &str,
        ending: &str,
    ) -> Result<Option<Name>, ResolveFault>
        ensures { IsResolution result (choice
            (present self.now ((folder.now ++ (codes "_" ++ (name.now ++ ending.now))) ∷ []))) }
    {
        if self.may_be_partial() {
            self.candidate(path, folder, "_", name, ending)
        } else {
            Ok(None)
        }
    }

    fn candidate(
        &self,
        path: &mut String,
        folder: &str,
        mark: &str,
        name: &str,
        ending: &str,
    ) -> Result<Option<Name>, ResolveFault>
        ensures { IsResolution result (choice
            (present self.now ((folder.now ++ (mark.now ++ (name.now ++ ending.now))) ∷ []))) }
    {
        path.clear();
        path.push_str(folder)?;
        path.push_str(mark)?;
        path.push_str(name)?;
        path.push_str(ending)?;
        match self.path(path.as_str()) {
            Some(found) => Ok(Some(found.share()?)),
            None => Ok(None),
        }
    }
}

fn or_not_found(found: Result<Option<Name>, ResolveFault>) -> Result<Name, ResolveFault>
    ensures { result ≡ or_not_found found }
{
    match found {
        Ok(Some(path)) => Ok(path),
        Ok(None) => Err(ResolveFault::NotFound),
        Err(fault) => Err(fault),
    }
}

fn one_of(first: Option<Name>, second: Option<Name>) -> Result<Option<Name>, ResolveFault>
    ensures { result ≡ both_choices first second }
{
    match (first, second) {
        (None, second) => Ok(second),
        (first, None) => Ok(first),
        (Some(_), Some(_)) => Err(ResolveFault::Ambiguous),
    }
}

/// Whether a path or a URL ends in `.sass`, `.scss` or `.css`.
pub fn has_extension(name: &str) -> bool
    ensures { result ≡ has_extension name.now }
{
    ends_with(name, ".sass") || (ends_with(name, ".scss") || ends_with(name, ".css"))
}

// The one segment of a text, where that leads on from a place. Most sheets and URLs are such, and then there is no way
// to walk.
fn lone(text: &str) -> Option<&str>
    ensures { IfSome result (λ name. IsLone text.now name.now) }
{
    match first_segment(text) {
        (name, None) => {
            if is_dot(name) || is_dot_dot(name) {
                None
            } else {
                Some(name)
            }
        }
        _ => None,
    }
}

/// Goes on from a place by the segments of a text. False where that leaves the folder, and then the place isn't used
/// any more.
fn walk<'a>(place: &mut Place<'a>, text: &'a str) -> Result<bool, ResolveFault>
    ensures place { IfOk result (λ within. walk (map (λ segment. segment.now) place.old.items) (segments text.now)
        ≡ (if within then Some (map (λ segment. segment.now) place.new.items) else None)) }
    ensures memory { IfErr result (λ fault. fault ≡ ResolveFault.Memory) }
{
    let mut left = Some(text);
    while let Some(part) = left {
        let (segment, rest) = first_segment(part);
        if !step(place, segment)? {
            return Ok(false);
        }
        left = rest;
    }
    Ok(true)
}

fn step<'a>(place: &mut Place<'a>, segment: &'a str) -> Result<bool, ResolveFault>
    ensures place { IfOk result (λ within. step (map (λ segment. segment.now) place.old.items) segment.now
        ≡ (if within then Some (map (λ segment. segment.now) place.new.items) else None)) }
    ensures memory { IfErr result (λ fault. fault ≡ ResolveFault.Memory) }
{
    if is_dot(segment) {
        return Ok(true);
    }
    if is_dot_dot(segment) {
        return Ok(go_up(place));
    }
    place.push(segment)?;
    Ok(true)
}

fn go_up(place: &mut Place<'_>) -> bool
    ensures { up (map (λ segment. segment.now) place.old.items)
        ≡ (if result then Some (map (λ segment. segment.now) place.new.items) else None) }
{
    place.pop().is_some()
}
