// The folders of a disk in memory.
ghost use Rattle.std.specs.Prelude.{◌≡◌, ◌++◌, IfOk, OnErr, nat_eq, take, option_map};
ghost use Rattle.std.specs.List.{ends_with};
ghost use Rattle.std.specs.Option.{option_copied};
ghost use Rattle.sw_io.specs.Disks.{course, after_listing, is_sheet, sheets_of, file_of, read_of, most_read};

use std::alloc::Global;
use std::marker::Model;
use sw_text::{List, Memory, Name};

/// The files of a folder: a path and the bytes there.
pub type Folder = List<(Name, List<u8>)>;

const MOST_READ: usize = 1_048_577;

/// The folder as it was listed last, and those that come, the next one first.
#[derive(Drop)]
pub struct Shelf {
    files: Folder,
    next: Vec<Folder>,
}

impl Model for Shelf {
    ghost use Rattle.sw_io.specs.Disks.{Course};

    ghost Value = { Course };

    ghost view = { λ shelf. record { files = shelf.files; next = shelf.next.items } };
}

impl Shelf {
    /// No file yet; these folders come. Takes no memory.
    pub fn new(alloc: Global, folders: List<Folder>) -> Shelf
        ensures { result ≡ course folders }
    {
        Shelf {
            files: List::new(alloc),
            next: folders.into_vec(),
        }
    }

    /// The paths of the sheets of the next folder, or of this one where none comes.
    pub fn list(&mut self, alloc: Global) -> Result<List<Name>, Memory>
        ensures ok { IfOk result (λ paths. paths ≡ sheets_of (after_listing self.old).files) }
        ensures turned { IfOk result (λ paths. self.new ≡ after_listing self.old) }
        ensures err { OnErr result (self.new ≡ self.old) }
    {
        if self.next.is_empty() {
            return sheets_of(alloc, self.files.as_slice());
        }
        let paths = sheets_of(alloc, self.next[0].as_slice())?;
        self.files = self.next.remove(0);
        Ok(paths)
    }

    /// The first bytes of a file.
    pub fn read(&self, alloc: Global, path: &str) -> Result<Option<List<u8>>, Memory>
        ensures { IfOk result (λ bytes. bytes ≡ read_of self.now.files path.now) }
    {
        first_of(alloc, file_of(self.files.as_slice(), path))
    }
}

/// Whether a path is that of a sheet, by its end.
pub fn is_sheet(path: &str) -> bool
    ensures { result ≡ is_sheet path.now }
{
    ends_with(path, ".scss") || ends_with(path, ".sass") || ends_with(path, ".css")
}

fn ends_with(path: &str, ending: &str) -> bool
    ensures { result ≡ ends_with nat_eq path.now ending.now }
{
    path.ends_with(ending)
}

fn sheets_of(alloc: Global, files: &[(Name, List<u8>)]) -> Result<List<Name>, Memory>
    ensures { IfOk result (λ paths. paths ≡ sheets_of files.now) }
{
    let mut paths = List::new(alloc);
    for file in files {
        if is_sheet(file.0.as_str()) {
            paths.push(file.0.share()?)?;
        }
    }
    Ok(paths)
}

fn file_of<'a>(files: &'a [(Name, List<u8>)], path: &str) -> Option<&'a List<u8>>
    ensures { option_copied result ≡ file_of files.now path.now }
{
    for file in files {
        if file.0.as_str() == path {
            return Some(&file.1);
        }
    }
    None
}

// As much of a file as is read.
#[tactic(auto, using(std::proofs::lemmas::List::take_min), unfolding(crate::specs::Disks::most_read))]
fn first_bytes(alloc: Global, bytes: &[u8]) -> Result<List<u8>, Memory>
    ensures { IfOk result (λ first. first ≡ take most_read bytes.now) }
{
    let mut first = Vec::new(alloc);
    first.extend_from_slice(&bytes[..MOST_READ.min(bytes.len())])?;
    Ok(List::from_vec(first))
}

fn first_of(alloc: Global, found: Option<&List<u8>>) -> Result<Option<List<u8>>, Memory>
    ensures { IfOk result (λ bytes. bytes ≡ option_map (take most_read) (option_copied found.entry)) }
{
    match found {
        None => Ok(None),
        Some(bytes) => Ok(Some(first_bytes(alloc, bytes.as_slice())?)),
    }
}
