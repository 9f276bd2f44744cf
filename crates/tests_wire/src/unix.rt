//! What no clause says: what clients meet, and what may stand at a path.
use qo_causes::{Failed, Hub, Lane, SendError, What};
use qo_unix::UnixHub;
use std::fs;
use std::io::{Read, Write};
use std::net::Shutdown;
use std::os::unix::net::{UnixListener, UnixStream};
use std::test::Fail;

const MESSAGES: &[u8] = b"{\"execute\":\"qmp_capabilities\"}{\"execute\":\"query-status\"}";

#[test]
fn one_client_is_served(rt: HostRuntime) -> Result<(), Fail> {
    let path = "one_client_is_served.sock";
    let mut hub = UnixHub::new(rt.clone()?)?;
    assert_eq!(rt; hub.begin(path, 1), Ok(()));
    let mut client = UnixStream::connect(&rt, path)?;
    client.write_all(&MESSAGES[..30])?;
    client.write_all(&MESSAGES[30..])?;
    client.shutdown(Shutdown::Write)?;

    let opening = hub.next()?;
    assert!(rt; matches!(opening.what, What::Open(0)));
    assert!(rt; opening.at.seconds > 1_700_000_000);
    assert!(rt; hub.send(Lane::Session(0), b"hello\r\n").is_ok());
    let mut got = Vec::new(rt.alloc());
    for _ in 0..MESSAGES.len() {
        match hub.next()?.what {
            What::Bytes(0, chunk) => got.extend_from_slice(chunk.as_slice())?,
            What::Shut(0) => break,
            _ => assert!(rt; false, "neither bytes nor a shutting"),
        }
    }
    assert_eq!(rt; got.as_slice(), MESSAGES);
    assert!(rt; fs::exists(&rt, path)?);
    assert!(rt; matches!(hub.next()?.what, What::End));
    assert!(rt; !fs::exists(&rt, path)?);
    let mut reply = [0u8; 9];
    assert_eq!(rt; client.read(&mut reply)?, 7);
    assert_eq!(rt; &reply[..7], b"hello\r\n".as_slice());
    Ok(())
}

#[test]
fn clients_go_away(rt: HostRuntime) -> Result<(), Fail> {
    let path = "clients_go_away.sock";
    let mut hub = UnixHub::new(rt.clone()?)?;
    assert_eq!(rt; hub.begin(path, 3), Ok(()));
    drop(UnixStream::connect(&rt, path)?);
    let mut hasty = UnixStream::connect(&rt, path)?;
    hasty.write_all(b"{\"exec")?;

    // The first is gone before it is greeted.
    assert!(rt; matches!(hub.next()?.what, What::Open(0)));
    assert!(rt;
        matches!(
            hub.send(Lane::Session(0), b"hello"),
            Err(SendError::Gone(0))
        )
    );
    assert!(rt;
        matches!(
            hub.send(Lane::Session(0), b"hello"),
            Err(SendError::Gone(0))
        )
    );

    // The second goes in the middle of a message, with a greeting that it has not read.
    assert!(rt; matches!(hub.next()?.what, What::Open(0)));
    assert!(rt; hub.send(Lane::Session(0), b"hello").is_ok());
    drop(hasty);
    assert!(rt; matches!(hub.next()?.what, What::Bytes(0, _)));
    assert!(rt; matches!(hub.next()?.what, What::Shut(0)));

    // The third is served, and the hub ends before it does.
    let mut client = UnixStream::connect(&rt, path)?;
    assert!(rt; matches!(hub.next()?.what, What::Open(0)));
    assert!(rt; hub.send(Lane::Session(0), b"hello").is_ok());
    drop(hub);
    let mut greeting = [0u8; 9];
    assert_eq!(rt; client.read(&mut greeting)?, 5);
    assert_eq!(rt; client.read(&mut greeting)?, 0);
    assert!(rt; !fs::exists(&rt, path)?);
    Ok(())
}

#[test]
fn a_socket_file_left_after_is_replaced(rt: HostRuntime) -> Result<(), Fail> {
    let path = "left_after.sock";
    drop(UnixListener::bind(&rt, path)?);
    let mut hub = UnixHub::new(rt.clone()?)?;
    assert_eq!(rt; hub.begin(path, 1), Ok(()));
    let _client = UnixStream::connect(&rt, path)?;
    assert!(rt; matches!(hub.next()?.what, What::Open(0)));

    // Another hub does not take the place of this one, nor does this one begin again.
    let mut other = UnixHub::new(rt.clone()?)?;
    assert_eq!(rt; other.begin(path, 1), Err(Failed));
    assert_eq!(rt; hub.begin("another_place.sock", 1), Err(Failed));
    drop(other);
    assert!(rt; fs::exists(&rt, path)?);

    // What has taken the place of its file is not the hub's to remove.
    fs::remove_file(&rt, path)?;
    fs::write(&rt, path, "mine")?;
    drop(hub);
    assert_eq!(rt; fs::read_to_string(&rt, path)?.as_str(), "mine");
    fs::remove_file(&rt, path)?;
    Ok(())
}

#[test]
fn other_things_at_the_path_stay(rt: HostRuntime) -> Result<(), Fail> {
    let (file, folder) = ("plain_file.sock", "folder.sock");
    fs::write(&rt, file, "mine")?;
    fs::create_dir(&rt, folder)?;
    let long = "p".repeat(rt.alloc(), 108)?;
    let mut hub = UnixHub::new(rt.clone()?)?;
    for path in [file, folder, "", "no_such_folder/s.sock"] {
        assert_eq!(rt; hub.begin(path, 1), Err(Failed), "at {path}");
    }
    assert_eq!(rt; hub.begin(long.as_str(), 1), Err(Failed));
    assert!(rt; matches!(hub.next()?.what, What::End));
    assert!(rt; matches!(hub.send(Lane::Guest, b"ok\n"), Err(SendError::Failed)));
    assert!(rt; matches!(hub.send(Lane::Session(1), b"ok"), Err(SendError::Failed)));
    assert!(rt; matches!(hub.send(Lane::Session(0), b"ok"), Err(SendError::Gone(0))));
    drop(hub);
    assert_eq!(rt; fs::read_to_string(&rt, file)?.as_str(), "mine");
    fs::remove_file(&rt, file)?;
    fs::remove_dir(&rt, folder)?;
    Ok(())
}
