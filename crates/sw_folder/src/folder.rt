// The table of files, and the edits.
ghost use Rattle.std.specs.Prelude.{◌≡◌, ◌≤◌, ℕ, List, codes, nat_eq, not, ◌&&◌, nat_le, true, false, Ok, None, Some, IsTrue, length, if◌then◌else◌, IfOk, IfErr, IfSome, OnOk, OnErr, MatchResult};
ghost use Rattle.std.specs.Bool.{OnFalse};
ghost use Rattle.std.specs.List.{ends_with, list_any};
ghost use Rattle.std.specs.Option.{option_copied};
ghost use Rattle.std.specs.Str.{is_utf8};
ghost use Rattle.std.specs.FinMap as files;
ghost use Rattle.sw_folder.specs.Edits.{after_put, after_removal, put_fault, IsFaultOf};
ghost use Rattle.sw_folder.specs.Files.{IsFolder, most_bytes, most_files};
ghost use Rattle.sw_folder.specs.Paths.{is_path, is_underscore};
ghost use Rattle.sw_folder.specs.Table.{marked, files_of};

use crate::edit::{EditFault, unread_fault};
use crate::path::{ends_with, has_underscore, is_path};
use crate::sought::Sought;
use indexmap::IndexMap;
use std::alloc::Global;
use std::marker::Model;
use std::str;
use sw_text::{Memory, Name};

const MOST_FILES: usize = 4_096;

/// What a path of the folder may have: false only where none has it, and then it isn't looked for.
#[derive(Clone, Copy, Drop)]
struct Marks {
    /// It ends in `.sass`.
    indented: bool,
    /// It has an `_`, as that of a partial.
    underscored: bool,
}

/// The files of a folder, each a text in UTF-8 under its path, which contracts see in byte order of the paths. Both are
/// shared with those who ask for them.
pub struct Folder {
    table: IndexMap<Name, Name>,
    marks: Marks,
    alloc: Global,
}

impl Drop for Folder {
    fn drop(self) {
        let Folder {
            table: _,
            marks: _,
            alloc: _,
        } = self;
    }
}

impl Model for Folder {
    ghost use Rattle.sw_folder.specs.Files.{Files, files_code};

    ghost Value = { Files };

    ghost coded = { files_code };

    ghost use Rattle.sw_folder.specs.Table.{files_of, IsTable};

    ghost view = { λ folder. files_of folder.table.entries };

    ghost invariant = { λ folder. IsTable folder.marks folder.table.entries };
}

impl Folder {
    /// A folder without files.
    pub fn new(alloc: Global) -> Self
        ensures { result ≡ files.empty }
    {
        Folder {
            table: IndexMap::new(alloc),
            marks: Marks {
                indented: false,
                underscored: false,
            },
            alloc,
        }
    }

    /// Puts a file in the place of the one with this path, or beside the others. Refused, in this order: `BadPath`;
    /// `TooLong` over 1,048,576 bytes; `TooManyFiles` for a new path beside 4,096 files; `NotText` where the bytes
    /// aren't UTF-8. After a fault or want of memory the folder is as before.
    pub fn put(&mut self, path: &str, bytes: &[u8]) -> Result<(), EditFault>
        ensures ok { OnOk result (after_put path.now bytes.now self.old ≡ Ok self.new) }
        ensures refused { IfErr result (λ fault. IsFaultOf fault (after_put path.now bytes.now self.old)) }
        ensures unchanged { OnErr result (self.new ≡ self.old) }
    {
        let text = self.admit(path, bytes)?;
        self.insert(path, text)
    }

    /// Takes a file out. Refused with `BadPath`, then `NoSuchFile`; it takes no memory, so `Memory` is never the
    /// answer. After a fault the folder is as before.
    #[tactic(auto, unfolding(crate::specs::Edits::removal_fault))]
    pub fn remove(&mut self, path: &str) -> Result<(), EditFault>
        ensures ok { OnOk result (after_removal path.now self.old ≡ Ok self.new) }
        ensures refused { IfErr result (λ fault. after_removal path.now self.old ≡ Err fault) }
        ensures unchanged { OnErr result (self.new ≡ self.old) }
    {
        if !is_path(path) {
            return Err(EditFault::BadPath);
        }
        if self.take_out(path) {
            Ok(())
        } else {
            Err(EditFault::NoSuchFile)
        }
    }

    /// The text of the file with this path, where there is one.
    pub fn text(&self, path: &str) -> Option<&Name>
        ensures value { option_copied result ≡ files.get self.now path.now }
        ensures short { IfSome result (λ text. length text.now ≤ most_bytes) }
        ensures path { IfSome result (λ _. IsTrue (is_path path.now)) }
    {
        self.table.get(&Sought::new(path))
    }

    /// The same files, whose paths and texts are shared: what it takes goes with the number of files, and not with
    /// their bytes.
    pub fn copy(&self) -> Result<Folder, Memory>
        ensures { IfOk result (λ folder. folder ≡ self.now) }
    {
        let table = copy_of(self.alloc, &self.table)?;
        Ok(Folder {
            table,
            marks: self.marks,
            alloc: self.alloc,
        })
    }

    /// What every folder keeps: at most 4,096 files, each under a path, with at most 1,048,576 bytes.
    pub fn keeps_limits(&self)
        ensures { IsFolder self.now }
    {
        let _ = &self.table;
    }

    /// Whether there is a file with this path.
    pub(crate) fn holds(&self, path: &str) -> bool
        ensures { result ≡ files.contains_key self.now path.now }
    {
        self.table.contains_key(&Sought::new(path))
    }

    /// The path of the file with this path, where there is one.
    pub(crate) fn path(&self, path: &str) -> Option<&Name>
        ensures { option_copied result
            ≡ (if files.contains_key self.now path.now then Some path.now else None) }
    {
        match self.table.get_key_value(&Sought::new(path)) {
            Some((own, _)) => Some(own),
            None => None,
        }
    }

    /// Whether a path may end in `.sass`.
    pub(crate) fn may_be_indented(&self) -> bool
        ensures { OnFalse result ((path : List ℕ) → ends_with nat_eq path (codes ".sass") ≡ true
            → files.contains_key self.now path ≡ false) }
    {
        self.marks.indented
    }

    /// Whether a path may have an `_`.
    pub(crate) fn may_be_partial(&self) -> bool
        ensures { OnFalse result ((path : List ℕ) → list_any is_underscore path ≡ true
            → files.contains_key self.now path ≡ false) }
    {
        self.marks.underscored
    }

    pub(crate) fn allocator(&self) -> Global {
        self.alloc
    }

    /// The text of a put that isn't refused.
    #[tactic(auto, unfolding(crate::specs::Edits::put_fault))]
    fn admit<'b>(&self, path: &str, bytes: &'b [u8]) -> Result<&'b str, EditFault>
        ensures ok { IfOk result (λ text. text.now ≡ bytes.now) }
        ensures fault { MatchResult result (λ _. put_fault self.now path.now bytes.now ≡ None)
            (λ fault. put_fault self.now path.now bytes.now ≡ Some fault) }
    {
        if let Some(fault) = unread_fault(path, bytes.len()) {
            return Err(fault);
        }
        if self.is_full_beside(path) {
            return Err(EditFault::TooManyFiles);
        }
        text_of(bytes)
    }

    fn is_full_beside(&self, path: &str) -> bool
        ensures { result ≡ (not (files.contains_key self.now path.now) && nat_le most_files (files.len self.now)) }
    {
        !self.holds(path) && self.is_full()
    }

    fn is_full(&self) -> bool
        ensures { result ≡ nat_le most_files (files.len self.now) }
    {
        self.table.len() >= MOST_FILES
    }

    fn take_out(&mut self, path: &str) -> bool
        ensures found { result ≡ files.contains_key self.old path.now }
        ensures after { self.new ≡ files.remove self.old path.now }
        ensures absent { OnFalse result (self.new ≡ self.old) }
    {
        self.table.swap_remove(&Sought::new(path)).is_some()
    }

    fn insert(&mut self, path: &str, text: &str) -> Result<(), EditFault>
        requires { put_fault self.old path.now text.now ≡ None }
        ensures ok { OnOk result (self.new ≡ files.insert self.old path.now text.now) }
        ensures err { IfErr result (λ fault. fault ≡ EditFault.Memory) }
        ensures unchanged { OnErr result (self.new ≡ self.old) }
    {
        let marks = self.marks.with(path);
        let path = Name::new(self.alloc, path)?;
        let text = Name::new(self.alloc, text)?;
        self.table.insert(path, text)?;
        self.marks = marks;
        Ok(())
    }
}

impl Marks {
    /// What one more path may have too.
    fn with(self, path: &str) -> Marks
        ensures { result ≡ marked path.now self }
    {
        Marks {
            indented: self.indented || ends_with(path, ".sass"),
            underscored: self.underscored || has_underscore(path),
        }
    }
}

/// A table with the same files.
fn copy_of(alloc: Global, table: &IndexMap<Name, Name>) -> Result<IndexMap<Name, Name>, Memory>
    ensures files { IfOk result (λ copy. files_of copy.entries ≡ files_of table.now.entries) }
    ensures one_each { IfOk result (λ copy. length copy.entries ≡ files.len (files_of copy.entries)) }
{
    let mut copy = IndexMap::with_capacity(alloc, table.len())?;
    let count = table.len();
    for at in 0..count {
        let Some((path, text)) = table.get_index(at) else {
            unreachable!()
        };
        copy_entry(&mut copy, path, text)?;
    }
    Ok(copy)
}

fn copy_entry(copy: &mut IndexMap<Name, Name>, path: &Name, text: &Name) -> Result<(), Memory>
    ensures files { OnOk result (files_of copy.new.entries
        ≡ files.insert (files_of copy.old.entries) path.now text.now) }
    ensures one_each { OnOk result (length copy.old.entries ≡ files.len (files_of copy.old.entries)
        → length copy.new.entries ≡ files.len (files_of copy.new.entries)) }
{
    let path = path.share()?;
    let text = text.share()?;
    copy.insert(path, text)?;
    Ok(())
}

fn text_of(bytes: &[u8]) -> Result<&str, EditFault>
    ensures ok { IfOk result (λ text. text.now ≡ bytes.now) }
    ensures fault { MatchResult result (λ _. is_utf8 bytes.now ≡ true)
        (λ fault. (fault ≡ EditFault.NotText) × (is_utf8 bytes.now ≡ false)) }
{
    match str::from_utf8(bytes) {
        Ok(text) => Ok(text),
        Err(_) => Err(EditFault::NotText),
    }
}
