//! The whole life of a UART, as a record and its transcript.

use std::alloc::Global;
use std::test::Fail;

/// What begins an entry of session 0, and of the guest.
const CLIENT: &str = "bytes 1.000000 0";

const GUEST: &str = "guest 1.000000";

const GREETING: &str =
    "0 {\"QMP\":{\"capabilities\":[],\"version\":{\"package\":\"compose\",\"qemu\":{\"major\":1,\"micro\":0,\"minor\":0}}}}\r\n";

const EMPTY: &str = "0 {\"return\":{}}\r\n";

/// Whose bytes each entry has, the bytes, and the lines of the transcript that they come to.
const LIFE: [(&str, &str, &str); 10] = [
    (CLIENT, "{\"execute\":\"qmp_capabilities\"}", EMPTY),
    (
        CLIENT,
        "{\"execute\":\"chardev-add\",\"arguments\":{\"id\":\"r0\",\"backend\":{\"type\":\"ringbuf\",\"data\":{\"size\":16}}}}",
        EMPTY,
    ),
    (
        CLIENT,
        "{\"execute\":\"device_add\",\"arguments\":{\"driver\":\"slot-uart\",\"id\":\"u0\",\"bus\":\"root.0\",\"chardev\":\"r0\"}}",
        EMPTY,
    ),
    (GUEST, "read 0 2\n", "g ok 0x00000007\n"),
    (GUEST, "poll\nwrite 0 0 0x41\n", "g ok plug 0\ng ok\n"),
    (
        CLIENT,
        "{\"execute\":\"ringbuf-read\",\"arguments\":{\"device\":\"r0\",\"size\":16}}",
        "0 {\"return\":\"A\"}\r\n",
    ),
    (
        CLIENT,
        "{\"execute\":\"chardev-remove\",\"arguments\":{\"id\":\"r0\"}}",
        "0 {\"error\":{\"class\":\"GenericError\",\"desc\":\"E37 ring claimed\"}}\r\n",
    ),
    (
        CLIENT,
        "{\"execute\":\"device_del\",\"arguments\":{\"id\":\"u0\"}}",
        EMPTY,
    ),
    (
        GUEST,
        "ack 0\n",
        "0 {\"data\":{\"device\":\"u0\",\"path\":\"/machine/peripheral/u0\"},\"event\":\"DEVICE_DELETED\",\"timestamp\":{\"microseconds\":0,\"seconds\":1}}\r\ng ok\n",
    ),
    (
        CLIENT,
        "{\"execute\":\"chardev-remove\",\"arguments\":{\"id\":\"r0\"}}",
        EMPTY,
    ),
];

/// A record and its transcript, and how long both are before each entry.
#[derive(Drop)]
pub(crate) struct Life {
    pub(crate) record: Vec<u8>,
    pub(crate) transcript: Vec<u8>,
    /// The lengths of record and transcript behind the header and behind each entry.
    pub(crate) lengths: Vec<(usize, usize)>,
}

impl Life {
    /// The header of a record.
    fn begun(alloc: Global) -> Result<Life, Fail> {
        let mut lengths = Vec::new(alloc);
        lengths.push((7, 0))?;
        Ok(Life {
            record: Vec::from_slice(alloc, b"qrec 1\n")?,
            transcript: Vec::new(alloc),
            lengths,
        })
    }

    /// Adds an entry, and the lines that it comes to.
    fn add(&mut self, entry: &str, lines: &str) -> Result<(), Fail> {
        self.record.extend_from_slice(entry.as_bytes())?;
        self.transcript.extend_from_slice(lines.as_bytes())?;
        self.lengths
            .push((self.record.len(), self.transcript.len()))?;
        Ok(())
    }

    /// The life of a UART.
    pub(crate) fn of_a_uart(alloc: Global) -> Result<Life, Fail> {
        let mut life = Life::begun(alloc)?;
        life.add("open 1.000000 0\n", GREETING)?;
        for (whose, said, lines) in LIFE {
            let entry = format!(in alloc; "{whose} {}\n{said}\n", said.len())?;
            life.add(entry.as_str(), lines)?;
        }
        Ok(life)
    }
}
