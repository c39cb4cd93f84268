ghost use Rattle.std.specs.Prelude.{◌≡◌, ◌<◌, length, true, false};
ghost use Rattle.gt_io.specs.Ports.{IsOpen};
ghost use Rattle.gt_host.specs.LastLooks.{seen_by};

use super::*;
use crate::clock::minute_at;
use crate::conn::{Conn, Sign};
use crate::lookout::{Lookout, NextTask};
use crate::stop::{MAX_FAILED, Sought, look_again};
use gt_io::{
    Clock, Door, Failed, Got, Link, PortEvent, Ports, ReadFault, Took, find_all, read_all,
    send_all, write_all,
};
use std::io::{Read, Write};
use std::net::{Ipv4Addr, Net, TcpStream};
use std::rt::{self, Files};
use std::test::Fail;
use std::time::SystemTime;
use std::{fs, io};

/// Gives and takes a byte, and then breaks.
#[derive(Drop)]
struct Breaking {
    used: bool,
}

impl Read for Breaking {
    fn read(&mut self, buf: &mut [u8]) -> io::Result<usize> {
        let Some(first) = buf.first_mut() else {
            return Ok(0);
        };
        if self.used {
            return Err(io::Error::from(io::ErrorKind::BrokenPipe));
        }
        self.used = true;
        *first = b'a';
        Ok(1)
    }
}

impl Write for Breaking {
    fn write(&mut self, buf: &[u8]) -> io::Result<usize> {
        if self.used || buf.is_empty() {
            return Ok(0);
        }
        self.used = true;
        Ok(1)
    }

    fn flush(&mut self) -> io::Result<()> {
        Ok(())
    }
}

/// A fault of the stream is one of the source.
#[test]
fn a_reader_that_breaks_fails(rt: HostRuntime) -> Result<(), Fail> {
    let mut source = Reading::new(Breaking { used: false });
    assert!(rt; matches!(read_all(rt.alloc(), &mut source, 9), Err(ReadFault::Failed)));
    Ok(())
}

/// A write of no bytes is a fault, not a wait.
#[test]
fn a_writer_that_takes_nothing_fails(rt: HostRuntime) -> Result<(), Fail> {
    let mut sink = Writing::new(Breaking { used: false });
    assert!(rt; write_all(&mut sink, b"a") == Ok(()));
    assert!(rt; write_all(&mut sink, b"b") == Err(Failed));
    Ok(())
}

/// A file of the folder, and then none with this name.
#[test]
fn a_file_is_found_and_read(rt: HostRuntime) -> Result<(), Fail> {
    let name = "gt_host_test.txt";
    fs::write(&rt, name, "text")?;
    let mut shelf = HostShelf::new(&rt);
    let text = find_all(rt.alloc(), &mut shelf, name, 4);
    fs::remove_file(&rt, name)?;
    assert!(rt; text?.as_slice() == b"text".as_slice());
    assert!(rt;
        matches!(
            find_all(rt.alloc(), &mut shelf, name, 4),
            Err(ReadFault::Failed)
        )
    );
    Ok(())
}

/// A file that stands, of which the first looks fail.
#[derive(Drop)]
struct Hazy {
    fails: u32,
    stands: bool,
    failed: u32,
    pauses: u32,
}

impl Sought for Hazy {
    ghost last_look = { λ f. record { stands = f.stands; failed = f.failed } };

    fn look(&mut self) -> io::Result<bool> {
        if self.fails > 0 {
            self.fails -= 1;
            self.failed = self.failed.saturating_add(1);
            return Err(io::Error::from(io::ErrorKind::TimedOut));
        }
        self.stands = true;
        self.failed = 0;
        Ok(true)
    }

    fn pause(&mut self) {
        self.pauses = self.pauses.saturating_add(1);
    }
}

/// Looks that fail are passed over, behind a pause each, but for so many in a row.
#[test]
fn a_look_that_fails_is_tried_again(rt: HostRuntime) -> Result<(), Fail> {
    let mut file = Hazy {
        fails: MAX_FAILED - 1,
        stands: false,
        failed: 0,
        pauses: 0,
    };
    assert!(rt; matches!(look_again(&mut file), Ok(true)));
    assert!(rt; file.pauses == MAX_FAILED - 1);
    file.fails = MAX_FAILED;
    assert!(rt; look_again(&mut file).is_err());
    assert!(rt; file.fails == 0);
    Ok(())
}

/// The port that a lookout listens on.
fn port_of_lookout<R: Files + rt::Clock + Net>(lookout: &mut Lookout<'_, R>) -> io::Result<u16> {
    lookout.listen()?;
    match &lookout.listener {
        Some(listener) => Ok(listener.local_addr()?.port()),
        None => Err(io::Error::from(io::ErrorKind::NotConnected)),
    }
}

/// The connection that waits, within some steps.
fn next_of<R: Files + rt::Clock + Net>(
    lookout: &mut Lookout<'_, R>,
    free: bool,
    steps: u32,
) -> Result<Option<Box<Conn>>, Fail> {
    for _ in 0..steps {
        match lookout.step(&[], free)? {
            Some(NextTask::Fresh(conn)) => return Ok(Some(conn)),
            Some(_) => return Err("no connection".into()),
            None => {}
        }
    }
    Ok(None)
}

/// What one more read of a link comes to, and its first byte.
fn draw_once(conn: &mut Conn) -> io::Result<(Got, u8)> {
    let mut buf = [0u8; 8];
    let got = conn.draw(None, 1, &mut buf)?;
    Ok((got, buf[0]))
}

/// The sign of a link that is ready, with an urgent byte or without.
fn ready(urgent: bool) -> Sign {
    Sign {
        ended: false,
        urgent,
        late: false,
        looks: 0,
    }
}

/// Whether a turn goes on behind reads that come short where an urgent byte was told.
fn goes_on(client: &mut TcpStream, conn: &mut Conn) -> io::Result<bool> {
    client.write(b"ab")?;
    conn.wake(ready(true));
    let first = draw_once(conn)?.0;
    client.write(b"c")?;
    let second = draw_once(conn)?.0;
    let third = draw_once(conn)?.0;
    Ok(first == Got::Bytes(2) && second == Got::Bytes(1) && third == Got::NotYet)
}

/// Whether a read that comes short ends a turn, and the next one brings what has come.
fn ends_its_turn(client: &mut TcpStream, conn: &mut Conn) -> io::Result<bool> {
    client.write(b"d")?;
    conn.wake(ready(false));
    let first = draw_once(conn)?.0;
    client.write(b"e")?;
    let second = draw_once(conn)?.0;
    conn.wake(ready(false));
    let (third, byte) = draw_once(conn)?;
    Ok(first == Got::Bytes(1) && second == Got::NotYet && third == Got::Bytes(1) && byte == b'e')
}

/// A client waits where its link can't be opened, and is served once it can.
#[test]
fn a_client_waits_in_the_queue(rt: HostRuntime) -> Result<(), Fail> {
    let mut lookout = Lookout::new(&rt, rt.alloc(), 0);
    let port = port_of_lookout(&mut lookout)?;
    let mut client = TcpStream::connect(&rt, (Ipv4Addr::LOCALHOST, port))?;
    assert!(rt; next_of(&mut lookout, false, 6)?.is_none());
    let mut conn = next_of(&mut lookout, true, 6)?.ok_or("no connection")?;
    assert!(rt; goes_on(&mut client, &mut conn)?);
    assert!(rt; ends_its_turn(&mut client, &mut conn)?);
    Ok(())
}

/// The port that a door listens on.
fn port_of<R>(door: &HostDoor<'_, R>) -> io::Result<u16> {
    match &door.listener {
        Some(listener) => Ok(listener.local_addr()?.port()),
        None => Err(io::Error::from(io::ErrorKind::NotConnected)),
    }
}

/// Whether a client is told this, at most eight bytes; none at the end.
fn is_told(client: &mut TcpStream, wanted: &[u8]) -> io::Result<bool> {
    let mut buf = [0u8; 8];
    let n = client.read(&mut buf)?;
    Ok(n == wanted.len() && buf.starts_with(wanted))
}

/// Whether a link brings what its client writes.
fn brings<R: Files + rt::Clock>(
    client: &mut TcpStream,
    link: &mut HostLink<'_, R>,
    piece: &[u8],
) -> io::Result<bool>
    requires { link.old.finished ≡ false }
    ensures { link.new.finished ≡ false }
{
    client.write(piece)?;
    let mut buf = [0u8; 8];
    let read = link.read(&mut buf);
    Ok(read == Ok(piece.len()) && buf.starts_with(piece))
}

/// Serves a client over a link; whether both hear what the other says.
fn serve<R: Files + rt::Clock>(mut client: TcpStream, mut link: HostLink<'_, R>) -> io::Result<bool>
    requires { link.finished ≡ false }
{
    let first = brings(&mut client, &mut link, b"ask")?;
    let said = send_all(&mut link, b"y").is_ok() & send_all(&mut link, b"es").is_ok();
    let second = brings(&mut client, &mut link, b"more")?;
    let heard = is_told(&mut client, b"yes")?;
    let last = send_all(&mut link, b"no").is_ok();
    link.finish();
    Ok(
        first & said & second & heard & last
            && is_told(&mut client, b"no")?
            && is_told(&mut client, b"")?,
    )
}

/// Whether a link is open.
fn is_open<'a, R: Files + rt::Clock + Net>(ports: &HostPorts<'a, R>, link: u32) -> bool
    ensures { result ≡ true
        → IsOpen (⟦<HostPorts<'a, R> as Ports>⟧.harbour ports.now) link }
{
    let n = link as usize;
    if n == 0 || n > ports.ports.len() {
        return false;
    }
    ports.ports[n - 1].finished.is_none()
}

/// How many bytes of a link come next, none at its end.
fn hear<R: Files + rt::Clock + Net>(
    ports: &mut HostPorts<'_, R>,
    link: u32,
    buf: &mut [u8],
) -> Result<usize, Fail>
    requires { 0 < length buf.old }
{
    for _ in 0..1000 {
        if !is_open(ports, link) {
            return Err("not open".into());
        }
        match ports.read(link, buf)? {
            Got::Bytes(n) => return Ok(n),
            Got::Finished => return Ok(0),
            Got::NotYet => {
                if ports.answer()? == PortEvent::Stop {
                    return Err("stopped".into());
                }
            }
        }
    }
    Err("nothing came".into())
}

/// Tells a link something, and lets it go where it is told the last.
fn tell<R: Files + rt::Clock + Net>(
    ports: &mut HostPorts<'_, R>,
    link: u32,
    piece: &[u8],
    last: bool,
) -> Result<Took, Fail>
    requires { 0 < length piece.now }
{
    if !is_open(ports, link) {
        return Err("not open".into());
    }
    let took = ports.write(link, piece)?;
    if last && is_open(ports, link) {
        ports.finish(link);
    }
    Ok(took)
}

/// Opens two links.
fn open_two<R: Files + rt::Clock + Net>(ports: &mut HostPorts<'_, R>) -> Result<(), Fail> {
    for _ in 0..1000 {
        if ports.ports.len() == 2 {
            break;
        }
        ports.answer()?;
    }
    Ok(())
}

/// Whether a link comes to have what its client writes.
fn is_heard<R: Files + rt::Clock + Net>(
    ports: &mut HostPorts<'_, R>,
    link: u32,
    client: &mut TcpStream,
    piece: &[u8],
) -> Result<bool, Fail> {
    client.write(piece)?;
    let mut buf = [0u8; 8];
    let n = hear(ports, link, &mut buf)?;
    Ok(n == piece.len() && buf.starts_with(piece))
}

/// Whether two clients are served side by side.
fn both_speak<R: Files + rt::Clock + Net>(
    ports: &mut HostPorts<'_, R>,
    one: &mut TcpStream,
    two: &mut TcpStream,
) -> Result<bool, Fail> {
    Ok(
        is_heard(ports, 1, one, b"ask")?
            && tell(ports, 1, b"y", false)? == Took::Bytes(1)
            && tell(ports, 1, b"es", false)? == Took::Bytes(2)
            && is_heard(ports, 2, two, b"more")?
            && is_heard(ports, 1, one, b"so")?
            && is_told(one, b"yes")?,
    )
}

/// Whether the end of the first link is heard, and the second one ended behind its last reply.
fn both_end<R: Files + rt::Clock + Net>(
    ports: &mut HostPorts<'_, R>,
    two: &mut TcpStream,
) -> Result<bool, Fail> {
    Ok(
        hear(ports, 1, &mut [0u8; 8])? == 0
            && tell(ports, 2, b"no", true)? == Took::Bytes(2)
            && is_told(two, b"no")?
            && is_told(two, b"")?,
    )
}

/// Serves two clients side by side, of which one ends; whether both are served well.
fn serve_both<R: Files + rt::Clock + Net>(
    ports: &mut HostPorts<'_, R>,
    mut one: TcpStream,
    mut two: TcpStream,
) -> Result<bool, Fail> {
    open_two(ports)?;
    if !both_speak(ports, &mut one, &mut two)? {
        return Ok(false);
    }
    drop(one);
    both_end(ports, &mut two)
}

/// The port that ports listen on.
fn port_of_ports<R: Files + rt::Clock + Net>(ports: &mut HostPorts<'_, R>) -> io::Result<u16> {
    ports.lookout.listen()?;
    match &ports.lookout.listener {
        Some(listener) => Ok(listener.local_addr()?.port()),
        None => Err(io::Error::from(io::ErrorKind::NotConnected)),
    }
}

/// Whoever connects to a door that was closed is refused.
#[test]
fn a_closed_door_refuses_clients(rt: HostRuntime) -> Result<(), Fail> {
    let mut door = HostDoor::new(&rt, rt.alloc(), 0);
    door.listen()?;
    let port = port_of(&door)?;
    door.rest();
    let _client = TcpStream::connect(&rt, (Ipv4Addr::LOCALHOST, port))?;
    door.close();
    assert!(rt; refuses(&rt, port));
    assert!(rt; matches!(door.next(), Err(Failed)));
    Ok(())
}

/// Whether nobody listens at a port.
fn refuses(rt: &HostRuntime, port: u16) -> bool {
    TcpStream::connect(rt, (Ipv4Addr::LOCALHOST, port)).is_err()
}

/// Serves a client of a door; the door's port.
fn serve_first(rt: &HostRuntime, door: &mut HostDoor<'_, HostRuntime>) -> Result<u16, Fail> {
    door.listen()?;
    let port = port_of(door)?;
    let client = TcpStream::connect(rt, (Ipv4Addr::LOCALHOST, port))?;
    let link = door.next()?.ok_or("no connection")?;
    if serve(client, link)? {
        Ok(port)
    } else {
        Err("not served".into())
    }
}

/// Serves two clients of ports; their port.
fn serve_many(rt: &HostRuntime, ports: &mut HostPorts<'_, HostRuntime>) -> Result<u16, Fail> {
    let port = port_of_ports(ports)?;
    let one = TcpStream::connect(rt, (Ipv4Addr::LOCALHOST, port))?;
    let two = TcpStream::connect(rt, (Ipv4Addr::LOCALHOST, port))?;
    if serve_both(ports, one, two)? {
        Ok(port)
    } else {
        Err("not served".into())
    }
}

/// All doors and ports end at the stop file, with links that wait closed.
#[test]
fn clients_are_served_until_the_stop_file_stands(rt: HostRuntime) -> Result<(), Fail> {
    let mut door = HostDoor::new(&rt, rt.alloc(), 0);
    let port = serve_first(&rt, &mut door)?;
    let mut ports = HostPorts::new(&rt, rt.alloc(), 0);
    let many = serve_many(&rt, &mut ports)?;
    let mut second = HostDoor::new(&rt, rt.alloc(), port);
    assert!(rt; matches!(second.next(), Err(Failed)));
    let _silent = TcpStream::connect(&rt, (Ipv4Addr::LOCALHOST, port))?;
    let mut waiting = door.next()?.ok_or("no connection")?;
    fs::write(&rt, "gtrbacd.stop", "")?;
    let end = waiting.read(&mut [0u8; 8]);
    let first_closed = matches!(door.next(), Ok(None));
    let second_closed = matches!(second.next(), Ok(None));
    let stopped = ports.answer();
    fs::remove_file(&rt, "gtrbacd.stop")?;
    assert!(rt; end == Ok(0) && first_closed && second_closed);
    assert!(rt; stopped == Ok(PortEvent::Stop));
    assert!(rt; refuses(&rt, port) && refuses(&rt, many));
    Ok(())
}

/// The minute of the system's clock, and the first and the last one that an instant has.
#[test]
fn the_clock_tells_the_minute(rt: HostRuntime) -> Result<(), Fail> {
    let mut clock = HostClock::new(&rt);
    let before = SystemTime::now(&rt)?.duration_since(SystemTime::UNIX_EPOCH)?;
    let now = clock.now();
    let after = SystemTime::now(&rt)?.duration_since(SystemTime::UNIX_EPOCH)?;
    assert!(rt; minute_at(before.as_secs()) <= now && now <= minute_at(after.as_secs()));
    assert!(rt; minute_at(1_767_607_200).minute() == 13_682_040);
    assert!(rt; minute_at(1_767_607_259).minute() == 13_682_040);
    assert!(rt; minute_at(946_684_799).minute() == 0);
    assert!(rt; minute_at(4_102_444_800).minute() == 52_595_999);
    Ok(())
}
