// Calls on disks in memory: `steady a.scss=x,b.css=y / a.scss=z ; list | read a.scss`, of which the folders come one
// after another, and `failing 2 3 ; FOLDERS ; STEPS`, where the calls of these numbers fail.
use std::alloc::Global;
use sw_io::{Disk, DiskEnd, Folder, MemDisk, SteadyDisk};
use sw_rows_files::{Refusal, TextWriter, text_of};
use sw_text::{List, Name};

// Disks in memory hold the same files under every name.
const DIR: &str = "folder";

/// What the steps see of the disk, with ` | ` between two; a call of the disk that fails gives `failed`. `NoCall` for
/// another name or step, or a number that isn't one; `Memory` exactly where none was found.
pub fn answer(alloc: Global, name: &str, text: &str) -> Result<String, Refusal> {
    match name {
        "steady" => steady(alloc, text),
        "failing" => failing(alloc, text),
        _ => Err(Refusal::NoCall),
    }
}

fn steady(alloc: Global, text: &str) -> Result<String, Refusal> {
    let (folders, steps) = text.split_once(" ; ").unwrap_or((text, ""));
    let mut disk = SteadyDisk::new(alloc, folders_of(alloc, folders)?);
    seen(alloc, &mut disk, steps)
}

fn failing(alloc: Global, text: &str) -> Result<String, Refusal> {
    let (numbers, rest) = text.split_once(" ; ").unwrap_or((text, ""));
    let (folders, steps) = rest.split_once(" ; ").unwrap_or((rest, ""));
    let numbers = numbers_of(alloc, numbers)?;
    let mut disk = MemDisk::new(alloc, folders_of(alloc, folders)?, numbers);
    seen(alloc, &mut disk, steps)
}

fn numbers_of(alloc: Global, text: &str) -> Result<List<u32>, Refusal> {
    let mut numbers = List::new(alloc);
    for number in text.split(' ') {
        numbers.push(number.parse::<u32>()?)?;
    }
    Ok(numbers)
}

fn folders_of(alloc: Global, text: &str) -> Result<List<Folder>, Refusal> {
    let mut folders = List::new(alloc);
    for folder in text.split(" / ") {
        folders.push(folder_of(alloc, folder)?)?;
    }
    Ok(folders)
}

fn folder_of(alloc: Global, text: &str) -> Result<Folder, Refusal> {
    let mut files = List::new(alloc);
    for file in text.split(',') {
        if let Some((path, bytes)) = file.split_once('=') {
            files.push(file_of(alloc, path, bytes)?)?;
        }
    }
    Ok(files)
}

fn file_of(alloc: Global, path: &str, text: &str) -> Result<(Name, List<u8>), Refusal> {
    let path = Name::new(alloc, path)?;
    let bytes = text.as_bytes().to_vec(alloc)?;
    Ok((path, List::from_vec(bytes)))
}

fn seen<D: Disk>(alloc: Global, disk: &mut D, steps: &str) -> Result<String, Refusal> {
    let mut writer = TextWriter::new(alloc);
    for step in steps.split(" | ") {
        if !writer.is_empty() {
            writer.text(" | ");
        }
        add_step(alloc, disk, step, &mut writer);
    }
    writer.written()
}

fn add_step<D: Disk>(alloc: Global, disk: &mut D, step: &str, writer: &mut TextWriter) {
    match step.strip_prefix("read ") {
        Some(path) => add_bytes(alloc, disk.read(alloc, DIR, path), writer),
        None if step == "list" => add_paths(disk.list(alloc, DIR), writer),
        None => writer.refuse(Refusal::NoCall),
    }
}

fn add_paths(paths: Result<List<Name>, DiskEnd>, writer: &mut TextWriter) {
    match paths {
        Ok(paths) => add_names(paths.as_slice(), writer),
        Err(DiskEnd::Failed) => writer.text("failed"),
        Err(DiskEnd::Memory) => writer.refuse(Refusal::Memory),
    }
}

fn add_names(names: &[Name], writer: &mut TextWriter) {
    if names.is_empty() {
        writer.text("nothing");
    }
    let mut between = "";
    for name in names {
        writer.text(between);
        writer.text(name.as_str());
        between = " ";
    }
}

fn add_bytes(alloc: Global, bytes: Result<Option<List<u8>>, DiskEnd>, writer: &mut TextWriter) {
    match bytes {
        Ok(None) => writer.text("none"),
        Ok(Some(bytes)) => writer.add(text_of(alloc, bytes.as_slice())),
        Err(DiskEnd::Failed) => writer.text("failed"),
        Err(DiskEnd::Memory) => writer.refuse(Refusal::Memory),
    }
}
