//! What the host answers to a request.

use crate::clock::TcpSocket;
use crate::request::Request;
use smoltcp_socket::wire::IpEndpoint;
use std::alloc::{AllocError, Global};
use std::fmt::{Display, Write};

/// How many bytes a connection has brought and taken, its answer included.
#[derive(Clone, Copy)]
pub struct Traffic {
    /// Bytes that came.
    pub received: u64,
    /// Bytes that were queued to be sent.
    pub sent: u64,
}

/// The head of the answer, and what is text of its content. Where bytes are asked for, they follow.
pub fn answer(
    alloc: Global,
    request: Request,
    socket: &TcpSocket<'_>,
    traffic: Traffic,
) -> Result<String, AllocError> {
    match request {
        Request::Page => {
            let page = page(alloc, socket, traffic)?;
            text(alloc, "200 OK", page.as_str())
        }
        Request::Bytes(count) => head(alloc, "200 OK", "application/octet-stream", count),
        Request::NotFound => text(alloc, "404 Not Found", "Not found: try / or /bytes/1000\n"),
        Request::NotAllowed => text(alloc, "405 Method Not Allowed", "Only GET is answered\n"),
        Request::Unfinished | Request::Bad => text(alloc, "400 Bad Request", "No request\n"),
    }
}

fn head(alloc: Global, status: &str, kind: &str, length: u64) -> Result<String, AllocError> {
    let mut out = String::new(alloc);
    match put_head(&mut out, status, kind, length) {
        Ok(()) => Ok(out),
        Err(error) => Err(error),
    }
}

// What owns a text has no way out but its end, so the texts are written behind a `&mut`: that is cheaper to prove.
fn put_head(out: &mut String, status: &str, kind: &str, length: u64) -> Result<(), AllocError> {
    let allow = if status.starts_with("405") {
        "Allow: GET\r\n"
    } else {
        ""
    };
    write!(
        out,
        "HTTP/1.1 {status}\r\nServer: live_host\r\nConnection: close\r\n{allow}"
    )?;
    write!(
        out,
        "Content-Type: {kind}\r\nContent-Length: {length}\r\n\r\n"
    )
}

fn text(alloc: Global, status: &str, content: &str) -> Result<String, AllocError> {
    let mut out = String::new(alloc);
    match put_text(&mut out, status, content) {
        Ok(()) => Ok(out),
        Err(error) => Err(error),
    }
}

fn put_text(out: &mut String, status: &str, content: &str) -> Result<(), AllocError> {
    put_head(
        out,
        status,
        "text/plain; charset=utf-8",
        content.len() as u64,
    )?;
    out.push_str(content)
}

// What the socket knows of the connection that the page goes out on.
fn page(alloc: Global, socket: &TcpSocket<'_>, traffic: Traffic) -> Result<String, AllocError> {
    let mut out = String::new(alloc);
    match put_page(&mut out, socket, traffic) {
        Ok(()) => Ok(out),
        Err(error) => Err(error),
    }
}

fn put_page(out: &mut String, socket: &TcpSocket<'_>, traffic: Traffic) -> Result<(), AllocError> {
    out.push_str("The proved TCP sockets of smoltcp, on a stream of packets.\n\n")?;
    if let (Some(local), Some(remote)) = (socket.local_endpoint(), socket.remote_endpoint()) {
        put_ends(out, local, remote)?;
    }
    put_row(out, "state              ", socket.state().name(), "\n")?;
    put_rows(out, &rows(socket, traffic))
}

fn put_ends(out: &mut String, local: IpEndpoint, remote: IpEndpoint) -> Result<(), AllocError> {
    writeln!(
        out,
        "from               {local}\nto                 {remote}"
    )
}

// A name, a number, and its unit.
type Row = (&'static str, u64, &'static str);

fn rows(socket: &TcpSocket<'_>, traffic: Traffic) -> [Row; 6] {
    let timeout = socket.retransmission_timeout().total_millis();
    [
        (
            "your window        ",
            socket.remote_window() as u64,
            " bytes\n",
        ),
        (
            "congestion window  ",
            socket.congestion_window() as u64,
            " bytes\n",
        ),
        (
            "round trip         ",
            u64::from(socket.smoothed_round_trip()),
            " ms\n",
        ),
        ("sent again after   ", timeout, " ms\n"),
        ("bytes in           ", traffic.received, "\n"),
        ("bytes out          ", traffic.sent, " before this page\n"),
    ]
}

fn put_rows(out: &mut String, rows: &[Row]) -> Result<(), AllocError> {
    for (name, number, unit) in rows {
        put_row(out, name, *number, unit)?;
    }
    Ok(())
}

fn put_row<D: Display + Drop>(
    out: &mut String,
    name: &str,
    value: D,
    unit: &str,
) -> Result<(), AllocError> {
    write!(out, "{name}{value}{unit}")
}
