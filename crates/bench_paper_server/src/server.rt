//! A server of files to many connections, as a process.
//!
//! A process may not call `read`, whose reply is a copy. In its copying form the server copies the
//! bytes of a piece of a file from their aggregate into a buffer of its own, and makes a new
//! aggregate of the buffer, which it writes: the two copies of `read` and `write`. Both forms make
//! nine calls for a request whose response fits the connection's queue.
ghost use Rattle.std.specs.Prelude.{⊤, IfSome};
ghost use Rattle.iol_proc.specs.Prelude.{IsCopyFree};
ghost use Rattle.iol_proc.specs.CopyFree.{IsCopyFreeCall};

use crate::passing::Passing;
use crate::request::Request;
use crate::site::name_of;
use iol_core::descriptors::Mode;
use iol_core::events::{Call, Reply};
use iol_core::lists::Bytes;
use iol_core::numbers::{AggId, Fd};
use iol_core::refusals::Refusal;
use iol_proc::look::Look;
use iol_proc::process::{Process, Turn};
use std::alloc::{AllocError, Global};
use std::mem;

/// The bytes of a request at most.
const REQUEST: u32 = 4_096;

/// The bytes of a piece at most: with a head, those of a queue.
const PIECE: u32 = 65_000;

/// The purpose of the call that the server made last.
#[derive(Clone, Copy, Drop)]
enum Phase {
    Beginning,
    Accepting,
    Receiving,
    DroppingRequest,
    Opening,
    Reading,
    ClosingFile,
    DroppingPiece,
    MakingHead,
    Completing,
    Writing,
    Cutting,
    DroppingSent,
    Releasing,
    Closing,
}

/// A connection.
#[derive(Clone, Copy, Drop)]
struct Client {
    fd: Fd,

    // The file of its response, and the bytes of it that are not read yet.
    file: Option<Fd>,
    unread: u32,

    // The part of the response that its queue did not take yet.
    rest: Option<AggId>,

    // Whether it ends after this response.
    is_last: bool,
}

/// The server.
#[derive(Drop)]
pub struct Server {
    alloc: Global,
    passing: Passing,

    // The lengths of the files.
    lengths: Vec<u32>,
    clients: Vec<Client>,

    // The index of the client that is served now.
    at: usize,
    phase: Phase,

    // The aggregate with which that phase continues, if it needs one.
    agg: AggId,

    // The index of the file that it requested.
    file: Option<u32>,

    // The head of its response, until that begins.
    head: Vec<u8>,

    // The bytes of a piece that is made by copying.
    buffer: Vec<u8>,
}

impl Process for Server {
    // Any turn: the server is measured.
    ghost turns = { record {
      goes = λ server last lent turn next. ⊤;
      may_want = λ server last lent. ⊥;
    } };

    fn next(&mut self, last: &Reply, look: &Look<'_>) -> Result<Turn, AllocError> {
        Ok(self.turn(last, look))
    }
}

// The head of a response.
fn head_of(alloc: Global, length: u32, is_last: bool) -> Result<Vec<u8>, AllocError> {
    let last = if is_last { "Connection: close\r\n" } else { "" };
    let text = format!(in alloc; "HTTP/1.1 200 OK\r\nContent-Length: {length}\r\n{last}\r\n")?;
    Vec::from_slice(alloc, text.as_bytes())
}

impl Server {
    /// A server of files of these lengths.
    pub fn new(alloc: Global, passing: Passing, lengths: &[u32]) -> Result<Server, AllocError> {
        Ok(Server {
            alloc,
            passing,
            lengths: Vec::from_slice(alloc, lengths)?,
            clients: Vec::new(alloc),
            at: 0,
            phase: Phase::Beginning,
            agg: AggId::new(1),
            file: None,
            head: Vec::new(alloc),
            buffer: Vec::new(alloc),
        })
    }

    // Makes a call, whose reply is awaited.
    fn make(&mut self, phase: Phase, call: Call) -> Turn
        requires { IsCopyFreeCall call }
        ensures { IsCopyFree result }
    {
        self.phase = phase;
        Turn::Make(call)
    }

    // Makes a call, after which this aggregate is needed.
    fn make_with(&mut self, phase: Phase, agg: AggId, call: Call) -> Turn
        requires { IsCopyFreeCall call }
        ensures { IsCopyFree result }
    {
        self.agg = agg;
        self.make(phase, call)
    }

    // Continues with the reply to the last call.
    fn turn(&mut self, last: &Reply, look: &Look<'_>) -> Turn
        ensures { IsCopyFree result }
    {
        let agg = self.agg;
        match self.phase {
            Phase::Beginning => self.accept(),
            Phase::Accepting => self.accepted(last),
            Phase::Receiving => self.received(last, look),
            Phase::DroppingRequest => self.open(),
            Phase::Opening => self.opened(last),
            Phase::Reading => self.has_read(last, look),
            Phase::ClosingFile => self.complete(agg),
            Phase::DroppingPiece => self.make_copy(),
            Phase::MakingHead => self.join(last, agg),
            Phase::Completing => self.completed(last),
            Phase::Writing => self.wrote(last, look, agg),
            Phase::Cutting => self.has_cut(last, agg),
            Phase::DroppingSent => self.sent(),
            Phase::Releasing => self.close(),
            Phase::Closing => self.serve(),
        }
    }

    // Begins a round.
    fn accept(&mut self) -> Turn
        ensures { IsCopyFree result }
    {
        self.make(Phase::Accepting, Call::Accept)
    }

    fn accepted(&mut self, last: &Reply) -> Turn
        ensures { IsCopyFree result }
    {
        if let Reply::Fd(fd) = last {
            let client = Client {
                fd: *fd,
                file: None,
                unread: 0,
                rest: None,
                is_last: false,
            };
            if self.clients.push(client).is_ok() {
                return self.accept();
            }
        }
        self.at = 0;
        self.serve()
    }

    // Serves the client at this index. The round is over after the last one.
    fn serve(&mut self) -> Turn
        ensures { IsCopyFree result }
    {
        let Some(client) = self.client() else {
            self.phase = Phase::Beginning;
            return Turn::Yield;
        };
        let fd = client.fd;
        if let Some(agg) = client.rest {
            return self.make_with(Phase::Writing, agg, Call::IolWrite { fd, agg });
        }
        match client.file {
            Some(fd) => self.make(Phase::Reading, Call::IolRead { fd, count: PIECE }),
            None => self.make(Phase::Receiving, Call::IolRead { fd, count: REQUEST }),
        }
    }

    fn client(&self) -> Option<Client> {
        self.clients.get(self.at).copied()
    }

    // Serves the next client.
    fn advance(&mut self) -> Turn
        ensures { IsCopyFree result }
    {
        self.at = self.at.saturating_add(1);
        self.serve()
    }

    fn received(&mut self, last: &Reply, look: &Look<'_>) -> Turn
        ensures { IsCopyFree result }
    {
        match last {
            Reply::Agg(agg) => self.requested(*agg, look),
            Reply::Refused(Refusal::WouldBlock) => self.advance(),
            _ => self.close(),
        }
    }

    // A request came. An aggregate of no bytes is the end of the input.
    fn requested(&mut self, agg: AggId, look: &Look<'_>) -> Turn
        ensures { IsCopyFree result }
    {
        let request = Request::of_aggregate(look, agg);
        self.file = request.file;
        if let Some(client) = self.clients.get_mut(self.at) {
            client.is_last = request.is_last;
        }
        self.make(Phase::DroppingRequest, Call::AggDrop { agg })
    }

    // Opens the requested file. The connection ends if there is no request.
    fn open(&mut self) -> Turn
        ensures { IsCopyFree result }
    {
        let Some(index) = self.file else {
            return self.close();
        };
        let mode = Mode::Read;
        match name_of(self.alloc, index) {
            Ok(name) => self.make(Phase::Opening, Call::OpenFile { name, mode }),
            Err(_) => self.close(),
        }
    }

    fn opened(&mut self, last: &Reply) -> Turn
        ensures { IsCopyFree result }
    {
        let Reply::Fd(fd) = last else {
            return self.close();
        };
        if self.begin_response(*fd).is_err() {
            return self.close();
        }
        self.serve()
    }

    // The length of the requested file.
    fn length(&self) -> u32 {
        match self.file {
            Some(index) => self.lengths.get(index as usize).copied().unwrap_or(0),
            None => 0,
        }
    }

    // Begins the response with the file that was opened.
    fn begin_response(&mut self, fd: Fd) -> Result<(), AllocError> {
        let (alloc, length) = (self.alloc, self.length());
        let mut is_last = false;
        if let Some(client) = self.clients.get_mut(self.at) {
            client.file = Some(fd);
            client.unread = length;
            is_last = client.is_last;
        }
        self.head = head_of(alloc, length, is_last)?;
        Ok(())
    }

    // A piece of the file was read.
    fn has_read(&mut self, last: &Reply, look: &Look<'_>) -> Turn
        ensures { IsCopyFree result }
    {
        let Reply::Agg(agg) = last else {
            return self.close();
        };
        let agg = *agg;
        if matches!(self.passing, Passing::Copied) && self.copy(look, agg).is_err() {
            self.buffer.clear();
        }
        match self.take_file(look.len(agg).unwrap_or(0)) {
            Some(fd) => self.make_with(Phase::ClosingFile, agg, Call::Close { fd }),
            None => self.complete(agg),
        }
    }

    // Notes that bytes of the file were read: the file, if these were the last ones.
    fn take_file(&mut self, count: u32) -> Option<Fd> {
        let client = self.clients.get_mut(self.at)?;
        client.unread = client.unread.saturating_sub(count);
        if client.unread == 0 || count == 0 {
            client.file.take()
        } else {
            None
        }
    }

    // Copies the head and a piece into the buffer.
    fn copy(&mut self, look: &Look<'_>, agg: AggId) -> Result<(), AllocError> {
        let length = look.len(agg).unwrap_or(0) as usize;
        let mut buffer = Vec::with_capacity(self.alloc, length.saturating_add(self.head.len()))?;
        buffer.extend_from_slice(&self.head)?;
        if let Some(parts) = look.bytes(agg) {
            for part in parts {
                buffer.extend_from_slice(part)?;
            }
        }
        self.head.clear();
        self.buffer = buffer;
        Ok(())
    }

    // Makes a part of the response of a piece: by reference the head is joined to it, by copying it
    // is given up.
    fn complete(&mut self, agg: AggId) -> Turn
        ensures { IsCopyFree result }
    {
        match self.passing {
            Passing::Copied => self.make(Phase::DroppingPiece, Call::AggDrop { agg }),
            Passing::Shared => self.make_head(agg),
        }
    }

    // Makes the head, if the response has not begun.
    fn make_head(&mut self, body: AggId) -> Turn
        ensures { IsCopyFree result }
    {
        if self.head.is_empty() {
            return self.write(body);
        }
        let head = mem::replace(&mut self.head, Vec::new(self.alloc));
        let bytes = Bytes::from_vec(head);
        self.make_with(Phase::MakingHead, body, Call::AggMake { bytes })
    }

    // Places the buffer in new pages.
    fn make_copy(&mut self) -> Turn
        ensures { IsCopyFree result }
    {
        let buffer = mem::replace(&mut self.buffer, Vec::new(self.alloc));
        let bytes = Bytes::from_vec(buffer);
        self.make(Phase::Completing, Call::AggMake { bytes })
    }

    fn join(&mut self, last: &Reply, body: AggId) -> Turn
        ensures { IsCopyFree result }
    {
        let Reply::Agg(head) = last else {
            self.keep(Some(body));
            return self.close();
        };
        let (first, second) = (*head, body);
        self.make(Phase::Completing, Call::AggJoin { first, second })
    }

    fn completed(&mut self, last: &Reply) -> Turn
        ensures { IsCopyFree result }
    {
        match last {
            Reply::Agg(agg) => self.write(*agg),
            _ => self.close(),
        }
    }

    fn keep(&mut self, rest: Option<AggId>) {
        if let Some(client) = self.clients.get_mut(self.at) {
            client.rest = rest;
        }
    }

    // Writes a part of the response.
    fn write(&mut self, agg: AggId) -> Turn
        ensures { IsCopyFree result }
    {
        self.keep(Some(agg));
        self.serve()
    }

    // The queue took some bytes, or none.
    fn wrote(&mut self, last: &Reply, look: &Look<'_>, agg: AggId) -> Turn
        ensures { IsCopyFree result }
    {
        match last {
            Reply::Count(from) => self.took(*from, look.len(agg).unwrap_or(0), agg),
            Reply::Refused(Refusal::WouldBlock) => self.advance(),
            _ => self.close(),
        }
    }

    // The queue took `from` of `to` bytes.
    fn took(&mut self, from: u32, to: u32, agg: AggId) -> Turn
        ensures { IsCopyFree result }
    {
        if from < to {
            return self.make_with(Phase::Cutting, agg, Call::AggCut { agg, from, to });
        }
        self.keep(None);
        self.make(Phase::DroppingSent, Call::AggDrop { agg })
    }

    // Keeps the rest, and gives up the whole.
    fn has_cut(&mut self, last: &Reply, agg: AggId) -> Turn
        ensures { IsCopyFree result }
    {
        if let Reply::Agg(rest) = last {
            self.keep(Some(*rest));
        }
        self.make(Phase::DroppingSent, Call::AggDrop { agg })
    }

    // A part of the response was sent and given up.
    fn sent(&mut self) -> Turn
        ensures { IsCopyFree result }
    {
        let Some(client) = self.client() else {
            return self.serve();
        };
        if client.rest.is_some() {
            return self.advance();
        }
        if client.file.is_some() {
            return self.serve();
        }
        if client.is_last {
            self.close()
        } else {
            self.advance()
        }
    }

    // The call that gives up one of the things that the client holds.
    fn release(&mut self) -> Option<Call>
        ensures { IfSome result IsCopyFreeCall }
    {
        let client = self.clients.get_mut(self.at)?;
        if let Some(agg) = client.rest.take() {
            return Some(Call::AggDrop { agg });
        }
        let fd = client.file.take()?;
        Some(Call::Close { fd })
    }

    // Gives up all that the client holds, and closes its connection.
    fn close(&mut self) -> Turn
        ensures { IsCopyFree result }
    {
        match self.release() {
            Some(call) => self.make(Phase::Releasing, call),
            None => self.disconnect(),
        }
    }

    // Closes the connection. The last client takes its index.
    fn disconnect(&mut self) -> Turn
        ensures { IsCopyFree result }
    {
        let Some(client) = self.client() else {
            return self.serve();
        };
        let fd = client.fd;
        if self.at < self.clients.len() {
            let _client = self.clients.swap_remove(self.at);
        }
        self.make(Phase::Closing, Call::Close { fd })
    }
}
