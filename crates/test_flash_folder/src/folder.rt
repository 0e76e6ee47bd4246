//! Tests of serving a folder that is made for the test, and of the ends of the programs: contracts
//! do not cover sockets.
use flash_folder::loopback::loop_on;
use flash_folder::serve::{Server, serve};
use std::io::{Read, Write};
use std::net::{Ipv4Addr, Shutdown, SocketAddr, TcpStream};
use std::test::Fail;
use std::{fs, io};

const LARGE_BYTES: usize = 100_000;

const INDEX: &[u8] =
    b"HTTP/1.1 200 OK\r\nContent-Type: text/html\r\nContent-Length: 3\r\nConnection: close\r\n\r\nhi\n";

const LARGE_HEAD: &[u8] =
    b"HTTP/1.1 200 OK\r\nContent-Type: text/plain\r\nContent-Length: 100000\r\nConnection: close\r\n\r\n";

const NO_FOLDER: &[u8] = b"fault: folder\n";

// Makes a folder with a page and a large file. Files of an earlier run are deleted first.
fn make(rt: &HostRuntime, root: &str) -> io::Result<()> {
    let _ = fs::remove_dir_all(rt, root);
    fs::create_dir(rt, root)?;
    let page = format!(in rt.alloc(); "{root}/index.html")?;
    fs::write(rt, page.as_str(), "hi\n")?;
    let path = format!(in rt.alloc(); "{root}/large.txt")?;
    let large = vec![in rt.alloc(); b'z'; LARGE_BYTES]?;
    fs::write(rt, path.as_str(), large.as_slice())
}

// The output of a program, its error output, and its status.
#[derive(Drop)]
struct Ran {
    output: Vec<u8>,
    errors: Vec<u8>,
    status: u8,
}

fn run_loop(rt: &HostRuntime, root: &str, path: &str) -> Ran {
    let (mut output, mut errors) = (Vec::new(rt.alloc()), Vec::new(rt.alloc()));
    let status = loop_on(rt, root, path, &mut output, &mut errors);
    Ran {
        output,
        errors,
        status,
    }
}

fn run_server(rt: &HostRuntime, root: &str) -> Ran {
    let (mut output, mut errors) = (Vec::new(rt.alloc()), Vec::new(rt.alloc()));
    let status = serve(rt, 0, root, 1, &mut output, &mut errors);
    Ran {
        output,
        errors,
        status,
    }
}

fn is_done(ran: &Ran) -> bool {
    ran.status == 0 && ran.errors.is_empty()
}

fn lacks_folder(ran: &Ran) -> bool {
    ran.status == 3 && ran.output.is_empty() && ran.errors.as_slice() == NO_FOLDER
}

// Returns whether it is the response with the large file.
fn is_large(answer: &[u8]) -> bool {
    answer.len() == LARGE_HEAD.len() + LARGE_BYTES
        && answer.starts_with(LARGE_HEAD)
        && answer[LARGE_HEAD.len()..].iter().all(|byte| *byte == b'z')
}

fn loops_index(rt: &HostRuntime, root: &str) -> bool {
    let ran = run_loop(rt, root, "/");
    is_done(&ran) && ran.output.as_slice() == INDEX
}

fn loops_large(rt: &HostRuntime, root: &str) -> bool {
    let ran = run_loop(rt, root, "/large.txt");
    is_done(&ran) && is_large(&ran.output)
}

#[test]
fn loops(rt: HostRuntime) -> Result<(), Fail> {
    make(&rt, "looped")?;
    assert!(rt; loops_index(&rt, "looped"));
    assert!(rt; loops_large(&rt, "looped"));
    fs::remove_dir_all(&rt, "looped")?;
    Ok(())
}

fn loop_lacks_folder(rt: &HostRuntime, root: &str) -> bool {
    lacks_folder(&run_loop(rt, root, "/"))
}

fn server_lacks_folder(rt: &HostRuntime, root: &str) -> bool {
    lacks_folder(&run_server(rt, root))
}

#[test]
fn no_folder(rt: HostRuntime) {
    assert!(rt; loop_lacks_folder(&rt, "no such folder"));
    assert!(rt; server_lacks_folder(&rt, "no such folder"));
}

fn ask(client: &TcpStream) -> io::Result<()> {
    let mut to = client;
    to.write_all(b"GET / HTTP/1.1\r\nHost: a\r\nConnection: close\r\n\r\n")
}

// Returns whether the response to a client is the page, followed by the end.
fn gets_index(client: &TcpStream) -> io::Result<bool> {
    let mut answer = [0u8; INDEX.len()];
    let mut from = client;
    from.read_exact(&mut answer)?;
    Ok(answer.as_slice() == INDEX && from.read(&mut [0u8])? == 0)
}

// A connection that sent its request before the server accepts.
#[test]
fn asks_before(rt: HostRuntime) -> Result<(), Fail> {
    make(&rt, "served")?;
    let Ok(mut server) = Server::listen(&rt, 0, "served", 1) else {
        return Err(Fail::from("no server"));
    };
    let Ok(port) = server.port() else {
        return Err(Fail::from("no port"));
    };
    let client = TcpStream::connect(&rt, SocketAddr::from((Ipv4Addr::LOCALHOST, port)))?;
    ask(&client)?;
    client.shutdown(Shutdown::Write)?;
    assert!(rt; server.serve(&rt).is_ok());
    assert!(rt; gets_index(&client)?);
    fs::remove_dir_all(&rt, "served")?;
    Ok(())
}
