// A session over a keeper at hand, between whose requests functions of the host are detached: no request does so.
use std::alloc::{AllocError, Global};
use sw_cmd_session::SheetReader;
use sw_hosts::{HostFn, HostTable};
use sw_keeper::Keeper;
use sw_rows_sessions::{Ending, Row};
use sw_text::{List, Memory, Name};
use sw_wire::{Request, edit_reply, memory_reply, read_request, write_reply};
use sw_world::{Engine, Hosts};

/// What the row's requests come to, each answered over the same folder with its kept runs.
pub fn ended_over_keeper<E: Engine, F: HostFn>(
    alloc: Global,
    row: &Row,
    engine: &mut E,
    hosts: &mut HostTable<F>,
) -> Result<Ending, AllocError> {
    let mut compiles = Compiles {
        alloc,
        keeper: Keeper::new(alloc),
        replies: Vec::new(alloc),
    };
    for number in 0..row.requests() {
        for gone in row.detached.iter() {
            if gone.behind == number {
                hosts.detach(gone.name.as_str());
            }
        }
        compiles.answer(row.request(number), engine, hosts)?;
    }
    Ok(Ending {
        status: 0,
        replies: compiles.replies,
        heard: Vec::new(alloc),
    })
}

// What is compiled over, and the replies so far.
#[derive(Drop)]
struct Compiles<E: Engine> {
    alloc: Global,
    keeper: Keeper<SheetReader, E>,
    replies: Vec<u8>,
}

impl<E: Engine> Compiles<E> {
    // Answers a request: its line, and behind it a file's text with a line feed where it is a put.
    fn answer<H: Hosts>(
        &mut self,
        request: &[u8],
        engine: &mut E,
        hosts: &mut H,
    ) -> Result<(), AllocError> {
        let end = request
            .iter()
            .position(|sign| *sign == b'\n')
            .unwrap_or(request.len());
        let line = request.get(..end).unwrap_or(&[]);
        match read_request(self.alloc, line) {
            Ok(Request::Put { path, .. }) => {
                let behind = request.get(end.saturating_add(1)..).unwrap_or(&[]);
                let text = behind.get(..behind.len().saturating_sub(1)).unwrap_or(&[]);
                let reply = edit_reply(self.keeper.put(path.as_str(), text));
                self.replies.extend_from_slice(reply)
            }
            Ok(Request::Remove(path)) => {
                let reply = edit_reply(self.keeper.remove(path.as_str()));
                self.replies.extend_from_slice(reply)
            }
            Ok(Request::Compile { entry, paths }) => self.compile(&entry, &paths, engine, hosts),
            Ok(Request::End) | Err(_) => Ok(()),
        }
    }

    fn compile<H: Hosts>(
        &mut self,
        entry: &Name,
        paths: &List<Name>,
        engine: &mut E,
        hosts: &mut H,
    ) -> Result<(), AllocError> {
        let paths = paths.as_slice();
        match self
            .keeper
            .compile(&SheetReader, entry, paths, engine, hosts)
        {
            Ok(reply) => {
                write_reply(self.alloc, &reply, &mut self.replies).map_err(|_| AllocError)
            }
            Err(Memory) => self.replies.extend_from_slice(memory_reply()),
        }
    }
}
