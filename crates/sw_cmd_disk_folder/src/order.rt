// Paths in byte order.
ghost use Rattle.std.specs.Prelude.{◌≡◌, IfOk, map};
ghost use Rattle.sw_cmd_disk_folder.specs.Held.{IsInOrder};

use std::alloc::Global;
use sw_text::{Memory, Name};

/// The texts of these paths, in byte order.
pub fn in_order<'a>(alloc: Global, names: &'a [Name]) -> Result<Vec<&'a str>, Memory>
    ensures { IfOk result (λ order. IsInOrder names.now (map (λ path. path.now) order.items)) }
{
    let mut paths = texts(alloc, names)?;
    paths.sort()?;
    Ok(paths)
}

fn texts<'a>(alloc: Global, names: &'a [Name]) -> Result<Vec<&'a str>, Memory>
    ensures { IfOk result (λ texts. map (λ path. path.now) texts.items ≡ names.now) }
{
    let mut texts = Vec::new(alloc);
    'names: for name in names {
        texts.push(name.as_str())?;
    }
    Ok(texts)
}
