// What a line asks for.
use sw_text::{List, Name};

/// What a line of a session asks for. The path of a put, a removal or a compile is any word: whether it is a path of a
/// folder is judged when the request is answered.
#[derive(Debug, Drop)]
pub enum Request {
    /// The file with this path is to have the bytes that follow the line, so many, and then a line feed.
    Put { path: Name, length: u32 },
    Remove(Name),
    /// The CSS of this file is wanted. Each of the load paths is a path of the folder, or `.` for the folder itself.
    Compile { entry: Name, paths: List<Name> },
    End,
}

/// What a line asks for where compiles go on by steps. The path of a put, a removal or a start is any word, as in a
/// session.
#[derive(Debug, Drop)]
pub enum StepRequest {
    /// The file with this path is to have the bytes that follow the line, so many, and then a line feed.
    Put { path: Name, length: u32 },
    Remove(Name),
    /// A compile of this file is to begin. Each of the load paths is a path of the folder, or `.` for the folder itself.
    Start { entry: Name, paths: List<Name> },
    /// The compile with this number is to go on.
    Step(u32),
    End,
}
