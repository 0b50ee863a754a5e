// A row: what is sent, and what has to come of it.
ghost use Rattle.std.specs.Prelude.{◌≤◌};

use crate::hosts::RowHost;
use crate::listeners::Listener;
use std::alloc::{AllocError, Global};
use sw_text::Name;

/// What of the replies is compared.
#[derive(Clone, Copy, Debug, PartialEq, Eq)]
pub enum Look {
    /// Every byte.
    Whole,
    /// Every byte but the lines that tell which bodies ran.
    Outcome,
    /// The same, and of a fault only that it is one.
    AnyFault,
}

/// Where a request ends in what is sent, and its reply in what is wanted.
#[derive(Clone, Copy, Debug)]
struct Mark {
    sent: usize,
    replied: usize,
}

/// A function of the host that is detached, and behind how many requests.
#[derive(Drop)]
pub struct Detached {
    pub behind: usize,
    pub name: String,
}

/// A file of a folder on a disk.
#[derive(Drop)]
pub struct File {
    pub path: String,
    pub bytes: Vec<u8>,
}

/// A session with its replies.
#[derive(Drop)]
pub struct Row {
    pub name: String,
    /// The words of the command line.
    pub words: Vec<Name>,
    pub sent: Vec<u8>,
    pub wanted: Vec<u8>,
    /// Without a status the line `end` is sent behind the rest, and the status is 0.
    pub status: Option<u8>,
    pub look: Look,
    /// The folders that the disk holds, listing by listing.
    pub folders: Vec<Vec<File>>,
    /// The calls of the disk that fail.
    pub disk_fails: Vec<u32>,
    /// The calls of the sink that fail.
    pub sink_fails: Vec<u32>,
    /// The calls of the engine to run a body on that find no memory.
    pub starved: Vec<u32>,
    /// The functions of the host, in order of attaching.
    pub hosts: Vec<RowHost>,
    /// Those of them that are detached between requests.
    pub detached: Vec<Detached>,
    /// Those who are told of the replies.
    pub listeners: Vec<Listener>,
    /// Whether each call of each object fails in turn.
    pub breaks: bool,
    /// Whether the row is told wrongly on purpose, and has to come out otherwise.
    pub is_wrong: bool,
    /// One for each request that has its reply.
    marks: Vec<Mark>,
}

impl Row {
    /// A row of the command line `session`, which sends and wants nothing yet, and whose disk has no folder. An error
    /// exactly where no memory was found.
    pub fn new(alloc: Global, name: &str, look: Look) -> Result<Row, AllocError> {
        let mut words = Vec::new(alloc);
        words.push(word(alloc, "session")?)?;
        Ok(Row {
            name: String::from_str(alloc, name)?,
            words,
            sent: Vec::new(alloc),
            wanted: Vec::new(alloc),
            status: None,
            look,
            folders: Vec::new(alloc),
            disk_fails: Vec::new(alloc),
            sink_fails: Vec::new(alloc),
            starved: Vec::new(alloc),
            hosts: Vec::new(alloc),
            detached: Vec::new(alloc),
            listeners: Vec::new(alloc),
            breaks: false,
            is_wrong: false,
            marks: Vec::new(alloc),
        })
    }

    /// Sends a file. It is answered by `ok` unless the row says otherwise.
    pub fn put(&mut self, alloc: Global, path: &str, text: &str) -> Result<(), AllocError> {
        let count = text.len();
        let line = format!(in alloc; "put {path} {count}\n{text}\n")?;
        self.sent.extend_from_slice(line.as_bytes())
    }

    /// Sends a line, with a line feed behind it. An error exactly where no memory was found.
    pub fn send_line(&mut self, line: &str) -> Result<(), AllocError> {
        self.sent.extend_from_slice(line.as_bytes())?;
        self.sent.extend_from_slice(b"\n")
    }

    /// Wants a line of the replies, with a line feed behind it. An error exactly where no memory was found.
    pub fn want_line(&mut self, line: &str) -> Result<(), AllocError> {
        self.wanted.extend_from_slice(line.as_bytes())?;
        self.wanted.extend_from_slice(b"\n")
    }

    /// The reply to what was sent last stands whole.
    pub fn mark(&mut self) -> Result<(), AllocError> {
        self.marks.push(Mark {
            sent: self.sent.len(),
            replied: self.wanted.len(),
        })?;
        Ok(())
    }

    /// Detaches a function of the host behind the requests that were sent so far.
    pub fn detach(&mut self, alloc: Global, name: &str) -> Result<(), AllocError> {
        self.detached.push(Detached {
            behind: self.marks.len(),
            name: String::from_str(alloc, name)?,
        })?;
        Ok(())
    }

    /// How many requests have their reply.
    pub fn requests(&self) -> usize {
        self.marks.len()
    }

    /// What is sent of a request that has its reply, by its number from 0.
    pub fn request(&self, number: usize) -> &[u8] {
        let start = match number.checked_sub(1) {
            Some(before) => self.sent_with(before),
            None => 0,
        };
        self.sent.get(start..self.sent_with(number)).unwrap_or(&[])
    }

    // How much is sent when the request with this number has been.
    fn sent_with(&self, number: usize) -> usize {
        self.marks.get(number).map_or(0, |mark| mark.sent)
    }

    /// The replies to the requests that stand whole in so many bytes of the script.
    pub fn replies_to(&self, read: usize) -> &[u8] {
        let mut replied = 0usize;
        for mark in self.marks.iter() {
            if mark.sent <= read {
                replied = mark.replied;
            }
        }
        self.wanted.get(..replied).unwrap_or(&[])
    }

    /// What is written before the call of the sink with this number, where a write takes at most so many bytes and each
    /// reply is flushed.
    pub fn written_before(&self, call: usize, most: usize) -> &[u8]
        requires { 1 ≤ most }
    {
        let mut left = call.saturating_sub(1);
        let mut written = 0usize;
        for mark in self.marks.iter() {
            let length = mark.replied.saturating_sub(written);
            let writes = length.saturating_add(most - 1) / most;
            if left < writes {
                written = written.saturating_add(left.saturating_mul(most));
                return self.wanted.get(..written).unwrap_or(&[]);
            }
            written = mark.replied;
            if left == writes {
                return self.wanted.get(..written).unwrap_or(&[]);
            }
            left = left.saturating_sub(writes).saturating_sub(1);
        }
        &self.wanted
    }

    /// What is written before the call of the disk with this number, where each reply is that to a scan: one listing,
    /// and then a reading of each file of the folder that then comes, or of the last one.
    pub fn scanned_before(&self, call: usize) -> &[u8] {
        let mut left = call.saturating_sub(1);
        let mut replied = 0usize;
        let last = self.folders.len().saturating_sub(1);
        for (at, mark) in self.marks.iter().enumerate() {
            let files = match self.folders.get(at.min(last)) {
                Some(folder) => folder.len(),
                None => 0,
            };
            if left <= files {
                return self.wanted.get(..replied).unwrap_or(&[]);
            }
            left -= files.saturating_add(1);
            replied = mark.replied;
        }
        self.wanted.get(..replied).unwrap_or(&[])
    }

    /// The disk's next folder, with no file yet.
    pub fn add_folder(&mut self, alloc: Global) -> Result<(), AllocError> {
        self.folders.push(Vec::new(alloc))?;
        Ok(())
    }

    /// A file of the folder that was added last.
    pub fn add_file(&mut self, alloc: Global, path: &str, text: &[u8]) -> Result<(), AllocError> {
        if let Some(folder) = self.folders.last_mut() {
            folder.push(File {
                path: String::from_str(alloc, path)?,
                bytes: text.to_vec(alloc)?,
            })?;
        }
        Ok(())
    }

    /// Adds the numbers of calls of the disk that fail, from 1, with a space between two; what is no number is passed
    /// over. An error exactly where no memory was found.
    pub fn set_disk_fails(&mut self, numbers: &str) -> Result<(), AllocError> {
        add_numbers(numbers, &mut self.disk_fails)
    }

    /// The same of the calls of the sink.
    pub fn set_sink_fails(&mut self, numbers: &str) -> Result<(), AllocError> {
        add_numbers(numbers, &mut self.sink_fails)
    }

    /// The same of the calls of the engine to run a body on that find no memory.
    pub fn set_starved(&mut self, numbers: &str) -> Result<(), AllocError> {
        add_numbers(numbers, &mut self.starved)
    }

    /// Puts these words, with spaces between, in the place of those of the command line. An error exactly where no
    /// memory was found.
    pub fn set_words(&mut self, alloc: Global, words: &str) -> Result<(), AllocError> {
        self.words.clear();
        for text in words.split(' ') {
            if !text.is_empty() {
                self.words.push(word(alloc, text)?)?;
            }
        }
        Ok(())
    }
}

// The numbers among words with a space between two.
fn add_numbers(text: &str, numbers: &mut Vec<u32>) -> Result<(), AllocError> {
    for number in text.split(' ') {
        if let Ok(number) = number.parse::<u32>() {
            numbers.push(number)?;
        }
    }
    Ok(())
}

fn word(alloc: Global, text: &str) -> Result<Name, AllocError> {
    Name::new(alloc, text).map_err(|_| AllocError)
}
