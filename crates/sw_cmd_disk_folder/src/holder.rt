// What holds files.
ghost use Rattle.std.specs.Prelude.{◌≡◌, Ok, IfErr, OnOk, OnErr};
ghost use Rattle.std.specs.FinMap.{contains_key};
ghost use Rattle.sw_folder.specs.Files.{Files};
ghost use Rattle.sw_folder.specs.Edits.{after_put, IsFaultOf};

use sw_folder::EditFault;

/// What holds the files of a folder, and perhaps more that no edit changes.
pub trait Holder {
    ghost folder: { Self → Files };

    ghost Rest: { Type 0 };

    /// What is held beside the files.
    ghost rest: { Self → Rest };

    /// Puts a file, as `sw_folder::Folder::put` does.
    fn put(&mut self, path: &str, bytes: &[u8]) -> Result<(), EditFault>
        ensures ok { OnOk result (after_put path.now bytes.now (folder self.old) ≡ Ok (folder self.new)) }
        ensures refused { IfErr result (λ fault. IsFaultOf fault (after_put path.now bytes.now (folder self.old))) }
        ensures unchanged { OnErr result (folder self.new ≡ folder self.old) }
        ensures rest { rest self.new ≡ rest self.old };

    /// Whether there is a file with this path.
    fn holds(&self, path: &str) -> bool
        ensures { result ≡ contains_key (folder self.now) path.now };
}
