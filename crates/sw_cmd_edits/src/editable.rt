// What holds a folder that is edited.
ghost use Rattle.std.specs.Prelude.{◌≡◌, Ok, Err, IfErr, OnOk, OnErr};
ghost use Rattle.sw_folder.specs.Files.{Files};
ghost use Rattle.sw_folder.specs.Edits.{after_put, after_removal, IsFaultOf};

use sw_folder::EditFault;

/// What holds a folder that requests edit.
pub trait Editable {
    ghost Rest: { Type 0 };

    ghost folder: { Self → Files };

    /// What else is held.
    ghost rest: { Self → Rest };

    /// Puts a file, as `Folder::put` does.
    fn put(&mut self, path: &str, bytes: &[u8]) -> Result<(), EditFault>
        ensures ok { OnOk result (after_put path.now bytes.now (folder self.old) ≡ Ok (folder self.new)) }
        ensures refused { IfErr result (λ fault. IsFaultOf fault (after_put path.now bytes.now (folder self.old))) }
        ensures unchanged { OnErr result (folder self.new ≡ folder self.old) }
        ensures rest { rest self.new ≡ rest self.old };

    /// Takes a file out, as `Folder::remove` does.
    fn remove(&mut self, path: &str) -> Result<(), EditFault>
        ensures ok { OnOk result (after_removal path.now (folder self.old) ≡ Ok (folder self.new)) }
        ensures refused { IfErr result (λ fault. after_removal path.now (folder self.old) ≡ Err fault) }
        ensures unchanged { OnErr result (folder self.new ≡ folder self.old) }
        ensures rest { rest self.new ≡ rest self.old };
}
