//! Where messages end, and the texts of answers.

ghost use Rattle.std.specs.Prelude.{◌≡◌, ◌<◌, None};

use base_devices::{Device, Drain, Refused};
use base_values::{Answer, Body, Methods, Response, StatusCode, Steps};
use std::alloc::{AllocError, Global};
use std::fmt::Write;
use std::marker::Brand;
use std::process::Abort;
use std::sync::ledger::{Blank, Ledger};
use std::test::Fail;
use web_http::{FrameFault, Frames, write_answer, write_fault};

// Takes the messages that are there, and tells the length of each one's body, or the status of a fault. Whether the stream ends so.
fn take_all(frames: &mut Frames, text: &mut String) -> Result<bool, AllocError> {
    for _ in 0..1000 {
        match frames.next() {
            None => return Ok(false),
            Some(Err(fault)) => {
                write!(text, "{}", fault.status().as_u16())?;
                return Ok(true);
            }
            Some(Ok(())) => {
                let Some(frame) = frames.taken() else {
                    return Ok(false);
                };
                write!(text, "{},", frame.body().len())?;
                if frame.closes() {
                    text.push_str("close")?;
                    return Ok(true);
                }
            }
        }
    }
    Ok(false)
}

// What the stream gives, cut in pieces of that many bytes: the length of each message's body, and the status of a fault.
fn outcome(alloc: Global, bytes: &[u8], step: usize) -> Result<String, Fail>
    requires { 0 < step }
{
    let mut frames = Frames::new(alloc)?;
    let mut text = String::new(alloc);
    for piece in bytes.chunks(step) {
        frames.feed(piece)?;
        if take_all(&mut frames, &mut text)? {
            break;
        }
    }
    Ok(text)
}

// A head with so many fields, and one more of so many bytes.
fn head_of(alloc: Global, fields: usize, pad: usize) -> Result<Vec<u8>, AllocError> {
    let mut head = Vec::from_slice(alloc, b"GET /x HTTP/1.1\r\n")?;
    for _ in 0..fields {
        head.extend_from_slice(b"a: b\r\n")?;
    }
    if pad > 0 {
        head.extend_from_slice(b"p:")?;
        for _ in 0..pad {
            head.push(b'x')?;
        }
        head.extend_from_slice(b"\r\n")?;
    }
    head.extend_from_slice(b"\r\n")?;
    Ok(head)
}

// The stream gives these messages, or this fault, however it is cut.
fn framed_as(rt: &impl Abort, alloc: Global, bytes: &[u8], wanted: &str) -> Result<(), Fail> {
    for step in [1, 100_000] {
        assert_eq!(rt; outcome(alloc, bytes, step)?.as_str(), wanted);
    }
    Ok(())
}

#[test]
fn framing(rt: HostRuntime) -> Result<(), Fail> {
    let alloc = rt.alloc();
    for (bytes, wanted) in [
        ("", ""),
        (
            "GET /x HTTP/1.1\r\n\r\nPOST /y HTTP/1.1\r\nContent-Length: 3\r\n\r\nabcGE",
            "0,3,",
        ),
        ("POST /y HTTP/1.1\r\nContent-Length: 20\r\n\r\nabcdefg", ""),
        ("POST /y HTTP/1.1\r\ncontent-LENGTH: 1048577\r\n\r\n", "413"),
        ("POST /y HTTP/1.1\r\nContent-Length: +1\r\n\r\na", "400"),
        (
            "POST /y HTTP/1.1\r\nContent-Length: 1\r\nContent-Length: 1\r\n\r\na",
            "400",
        ),
        (
            "POST /y HTTP/1.1\r\nTransfer-Encoding: chunked\r\n\r\n",
            "501",
        ),
        ("GET /x HTTP/1.1\x01\r\n\r\nGET /x HTTP/1.1\r\n\r\n", "400"),
        ("GET /x HTTP/1.0\r\n\r\nGET /x HTTP/1.1\r\n\r\n", "0,close"),
        (
            "GET /x HTTP/1.1\r\nConnection: a , Close\r\n\r\nGET /x HTTP/1.1\r\n\r\n",
            "0,close",
        ),
    ] {
        framed_as(&rt, alloc, bytes.as_bytes(), wanted)?;
    }
    Ok(())
}

#[test]
fn heads_within_their_limits(rt: HostRuntime) -> Result<(), Fail> {
    let alloc = rt.alloc();
    for (fields, pad, wanted) in [
        (64, 0, "0,"),
        (65, 0, "431"),
        (0, 16_384 - 23, "0,"),
        (0, 16_385 - 23, "431"),
    ] {
        framed_as(&rt, alloc, &head_of(alloc, fields, pad)?, wanted)?;
    }
    Ok(())
}

// What is written for an answer, or for a fault, by a device with these ledgers.
fn written_by<L: Ledger, M: Ledger>(
    alloc: Global,
    calls: Blank,
    failures: Blank,
    answer: Result<Answer, FrameFault>,
    closes: bool,
) -> Vec<u8>
    requires calls_name { calls.name ≡ L.name }
    requires calls_parts { calls.parts ≡ L.parts }
    requires calls_some { 0 < L.parts }
    requires failures_name { failures.name ≡ M.name }
    requires failures_parts { failures.parts ≡ M.parts }
    requires failures_some { 0 < M.parts }
{
    let mut page = Device {
        inner: Vec::new(alloc),
        calls: Steps::<L>::new(calls),
        failures: Steps::<M>::new(failures),
    };
    let _ = match answer {
        Ok(answer) => write_answer(&mut page, &answer, closes),
        Err(fault) => write_fault(&mut page, fault),
    };
    page.inner
}

fn written(alloc: Global, answer: Result<Answer, FrameFault>, closes: bool) -> Vec<u8> {
    written_by::<Brand, Brand>(alloc, Blank::new(1), Blank::new(1), answer, closes)
}

fn response(
    alloc: Global,
    status: StatusCode,
    allow: Option<Methods>,
    body: &str,
) -> Result<Answer, AllocError> {
    let body = Body::new(Vec::from_slice(alloc, body.as_bytes())?);
    Ok(Answer::Decided(Response {
        status,
        allow,
        body,
    }))
}

#[test]
fn answers(rt: HostRuntime) -> Result<(), Fail> {
    let alloc = rt.alloc();
    let list = Methods {
        get: true,
        post: true,
        patch: false,
        delete: false,
    };
    for (answer, closes, wanted) in [
        (
            Err(FrameFault::BodyTooLarge),
            true,
            "HTTP/1.1 413 Payload Too Large\r\nContent-Type: application/json\r\nContent-Length: 28\r\nConnection: close\r\n\r\n{\"detail\":\"Body too large.\"}",
        ),
        (
            Ok(response(
                alloc,
                StatusCode::METHOD_NOT_ALLOWED,
                Some(list),
                "{\"detail\":\"Method \\\"PUT\\\" not allowed.\"}",
            )?),
            false,
            "HTTP/1.1 405 Method Not Allowed\r\nContent-Type: application/json\r\nContent-Length: 40\r\nAllow: GET, POST\r\n\r\n{\"detail\":\"Method \\\"PUT\\\" not allowed.\"}",
        ),
        (
            Ok(response(
                alloc,
                StatusCode::OK,
                None,
                "{\"available\":true,\"available_number\":1,\"blocking_vouchers\":0,\"cart_positions\":1,\"paid_orders\":0,\"pending_orders\":0,\"total_size\":2,\"waiting_list\":0}",
            )?),
            false,
            "HTTP/1.1 200 OK\r\nContent-Type: application/json\r\nContent-Length: 147\r\n\r\n{\"available\":true,\"available_number\":1,\"blocking_vouchers\":0,\"cart_positions\":1,\"paid_orders\":0,\"pending_orders\":0,\"total_size\":2,\"waiting_list\":0}",
        ),
    ] {
        assert_eq!(rt;
            written(alloc, answer, closes).as_slice(),
            wanted.as_bytes()
        );
    }
    Ok(())
}

// A writer that takes all that it is given, and counts its calls.
#[derive(Drop)]
struct Counted {
    calls: u64,
}

impl Drain for Counted {
    ghost taken = { λ w. None };

    ghost failures = { λ w. 0 };

    fn write(&mut self, bytes: &[u8]) -> Result<usize, Refused> {
        self.calls = self.calls.saturating_add(1);
        Ok(bytes.len())
    }
}

#[test]
fn an_answer_takes_two_writes(rt: HostRuntime) -> Result<(), Fail> {
    let alloc = rt.alloc();
    let answer = response(alloc, StatusCode::OK, None, "{\"id\":1}")?;
    let mut page = Counted { calls: 0 };
    for _ in 0..4 {
        let _ = write_answer(&mut page, &answer, false);
    }
    assert_eq!(rt; page.calls, 8);
    Ok(())
}
