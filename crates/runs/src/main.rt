// Demand 3 to be watched. Prints what host and modem come to in each of the 12 runs of the handshake
// (two native versions of the host, three pairs of a modem's native and advertised version, VERSION
// listed or not), every command and reply cut and put together again; a record that is written, cut, fed
// and read; and a mixture of fragments, from which messages come out whole.
#![tactic(auto)]

mod mixture;

use assembler::Assembly;
use assembler::door::Received;
use handshake::number_of;
use host::{Ask, Host, HostStage};
use message::MessageHeader;
use modem::{Modem, ModemAnswer, ModemStage};
use packet_service::{PacketForm, PacketService};
use protocol::message_type::{COMMAND, COMMAND_DONE, INDICATE_STATUS, QUERY};
use protocol::service::{
    DEVICE_SERVICES, PACKET_SERVICE, REGISTER_STATE, ServiceId, VERSION, basic_connect_id,
    extensions_id,
};
use protocol::status::NO_DEVICE_SUPPORT;
use protocol::{Reason, Refusal, Version};
use std::{fmt, io};

// Lists of services, with CID 15 of the extensions and without.
const WITH_VERSION: &[u8] =
    b"\x02\x00\x00\x00\x00\x00\x00\x00\x18\x00\x00\x00\x2C\x00\x00\x00\x44\x00\x00\x00\x20\x00\x00\x00\xA2\x89\xCC\x33\xBC\xBB\x8B\x4F\xB6\xB0\x13\x3E\xC2\xAA\xE6\xDF\x00\x00\x00\x00\x00\x00\x00\x00\x04\x00\x00\x00\x09\x00\x00\x00\x0A\x00\x00\x00\x0B\x00\x00\x00\x10\x00\x00\x00\x3D\x01\xDC\xC5\xFE\xF5\x4D\x05\x0D\x3A\xBE\xF7\x05\x8E\x9A\xAF\x00\x00\x00\x00\x00\x00\x00\x00\x01\x00\x00\x00\x0F\x00\x00\x00";

const WITHOUT_VERSION: &[u8] =
    b"\x01\x00\x00\x00\x00\x00\x00\x00\x10\x00\x00\x00\x2C\x00\x00\x00\xA2\x89\xCC\x33\xBC\xBB\x8B\x4F\xB6\xB0\x13\x3E\xC2\xAA\xE6\xDF\x00\x00\x00\x00\x00\x00\x00\x00\x04\x00\x00\x00\x09\x00\x00\x00\x0A\x00\x00\x00\x0B\x00\x00\x00\x10\x00\x00\x00";

// Both ends, and why the host refused, if it did.
#[derive(Clone, Copy)]
struct Ends {
    host: Host,
    modem: Modem,
    refused: Option<Reason>,
}

impl fmt::Display for Ends {
    fn fmt<W: fmt::Write>(&self, f: &mut fmt::Formatter<W>) -> fmt::Result {
        match self.refused {
            Some(reason) => write!(f, "refuses {}", u32::from(reason))?,
            None => write!(f, "{}", host_text(self.host.stage))?,
        }
        write!(f, "\t{}", modem_text(self.modem.stage))
    }
}

// A refusal as it is printed.
#[derive(Clone, Copy)]
struct Refused(Refusal);

impl fmt::Display for Refused {
    fn fmt<W: fmt::Write>(&self, f: &mut fmt::Formatter<W>) -> fmt::Result {
        write!(
            f,
            "refused {} at {}",
            u32::from(self.0.reason),
            self.0.place
        )
    }
}

fn main(rt: HostRuntime) -> io::Result<()> {
    println!(rt; "host\tmodem\tadvertised\tVERSION\thost's end\tmodem's end")?;
    print_host(rt, Version::V1)?;
    print_host(rt, Version::V2)?;
    println!(rt; "\nversion read at\tUplinkSpeed\tDownlinkSpeed")?;
    print_carried(rt)?;
    mixture::print_mixture(rt)
}

fn print_carried(rt: HostRuntime) -> io::Result<()> {
    match carried() {
        Ok(payload) => {
            print_read(rt, Version::V2, &payload)?;
            print_read(rt, Version::V1, &payload)
        }
        Err(refusal) => println!(rt; "{}", Refused(refusal)),
    }
}

// A packet service record written, cut at 64 bytes into an indication, and fed.
fn carried() -> Result<[u8; 32], Refusal> {
    let mut payload = [0u8; 32];
    let mut stream = [0u8; 128];
    let mut bytes = [0u8; 4096];
    let mut received = [0u8; 32];
    let info = PacketService {
        nw_error: 0,
        packet_service_state: 2,
        uplink_speed: 50000000,
        downlink_speed: 150000000,
        form: PacketForm::V2 {
            current_data_class: 0x40,
            frequency_range: 1,
        },
    };
    let message = MessageHeader {
        message_type: INDICATE_STATUS,
        transaction: 0,
        service: basic_connect_id(),
        cid: PACKET_SERVICE,
        word: 0,
    };
    packet_service::write(info, &mut payload)?;
    exchange::pass(
        message,
        64,
        &payload,
        &mut stream,
        &mut bytes,
        &mut received,
    )?;
    Ok(received)
}

fn print_read(rt: HostRuntime, version: Version, payload: &[u8]) -> io::Result<()> {
    let at = version_text(version);
    match packet_service::read(version, payload) {
        Ok(info) => println!(rt; "{at}\t{}\t{}", info.uplink_speed, info.downlink_speed),
        Err(refusal) => println!(rt; "{at}\t{}", Refused(refusal)),
    }
}

fn print_host(rt: HostRuntime, native: Version) -> io::Result<()> {
    print_modem(rt, native, Version::V1, Version::V1)?;
    print_modem(rt, native, Version::V2, Version::V1)?;
    print_modem(rt, native, Version::V2, Version::V2)
}

fn print_modem(
    rt: HostRuntime,
    native: Version,
    modem: Version,
    advertised: Version,
) -> io::Result<()> {
    let versions = [native, modem, advertised];
    print_run(rt, versions, "listed", WITH_VERSION)?;
    print_run(rt, versions, "not listed", WITHOUT_VERSION)
}

fn print_run(
    rt: HostRuntime,
    versions: [Version; 3],
    listed: &str,
    services: &[u8],
) -> io::Result<()> {
    let [native, modem, advertised] = versions;
    for version in versions {
        print!(rt; "{}\t", version_text(version))?;
    }
    match run(native, modem, advertised, services) {
        Ok(ends) => println!(rt; "{listed}\t{ends}"),
        Err(refusal) => println!(rt; "{listed}\t{}", Refused(refusal)),
    }
}

// From ends just opened: DEVICE_SERVICES and its reply, then, unless the host refuses, its first
// command and the reply. Each call is given its end as the one before left it.
fn run(
    native: Version,
    modem: Version,
    advertised: Version,
    services: &[u8],
) -> Result<Ends, Refusal> {
    let advertised = number_of(advertised);
    let host = host::make(number_of(native))?;
    let modem = modem::make(number_of(modem), advertised, services)?;
    let ends = Ends {
        host: host::open(host, advertised).host,
        modem: modem::open(modem),
        refused: None,
    };
    let listed = turn(ends, services);
    if listed.refused.is_some() {
        return Ok(listed);
    }
    Ok(turn(listed, services))
}

// The command that the host asks for, and its reply.
fn turn(ends: Ends, services: &[u8]) -> Ends {
    let mut sent = [0u8; 4];
    match host::next_command(ends.host, &mut sent) {
        Ok(Ask::Services) => {
            let message = query(basic_connect_id(), DEVICE_SERVICES);
            send(ends, message, b"", services)
        }
        Ok(Ask::Version(_)) => {
            let message = query(extensions_id(), VERSION);
            send(ends, message, &sent, services)
        }
        Ok(Ask::Free(_)) => {
            let message = query(basic_connect_id(), REGISTER_STATE);
            send(ends, message, b"", services)
        }
        Ok(Ask::Nothing) | Err(_) => ends,
    }
}

fn query(service: ServiceId, cid: u32) -> MessageHeader {
    MessageHeader {
        message_type: COMMAND,
        transaction: 1,
        service,
        cid,
        word: QUERY,
    }
}

// A command on its way to the modem, which takes it, and the reply on its way back.
fn send(ends: Ends, message: MessageHeader, payload: &[u8], services: &[u8]) -> Ends {
    let mut information = [0u8; 256];
    let mut room = [0u8; 4];
    let Some((command, information)) = carry(message, payload, &mut information) else {
        return ends;
    };
    let done = modem::receive(ends.modem, command, information, &mut room);
    let after = Ends {
        modem: done.modem,
        ..ends
    };
    match done.answer {
        Ok(ModemAnswer::Serve(_)) => reply(after, done_of(command, 0), services),
        Ok(ModemAnswer::Version(_)) => reply(after, done_of(command, 0), &room),
        Ok(ModemAnswer::Unknown(_)) => reply(after, done_of(command, NO_DEVICE_SUPPORT), b""),
        Ok(ModemAnswer::Failed(status)) => reply(after, done_of(command, status), b""),
        Err(_) => after,
    }
}

fn done_of(command: MessageHeader, status: u32) -> MessageHeader {
    MessageHeader {
        message_type: COMMAND_DONE,
        word: status,
        ..command
    }
}

// A reply on its way to the host, which hears it.
fn reply(ends: Ends, message: MessageHeader, payload: &[u8]) -> Ends {
    let mut information = [0u8; 256];
    let Some((message, information)) = carry(message, payload, &mut information) else {
        return ends;
    };
    let heard = host::receive(ends.host, message, information);
    Ends {
        host: heard.host,
        refused: heard.answer.err().map(|refusal| refusal.reason),
        ..ends
    }
}

// A message cut into one fragment, and what an empty assembly makes of it: a message and its information.
fn carry<'a>(
    message: MessageHeader,
    payload: &[u8],
    out: &'a mut [u8],
) -> Option<(MessageHeader, &'a [u8])> {
    let mut stream = [0u8; 256];
    let fragments = cutter::cut(message, 256, payload, &mut stream).ok()?;
    let piece = stream.get(..fragments.length)?;
    let receipt = assembler::door::receive(Assembly::empty(), piece, out);
    match receipt.received {
        Ok(
            Received::Complete {
                message,
                length,
                ..
            },
        ) => Some((message, out.get(..length)?)),
        _ => None,
    }
}

fn host_text(stage: HostStage) -> &'static str {
    match stage {
        HostStage::Settled { version } => version_text(version),
        HostStage::Closed => "closed",
        HostStage::Open { .. } => "open",
        HostStage::AwaitsVersion { .. } => "awaits VERSION",
    }
}

fn modem_text(stage: ModemStage) -> &'static str {
    match stage {
        ModemStage::Settled { version } => version_text(version),
        ModemStage::Start => "start",
        ModemStage::Listed => "waits",
    }
}

fn version_text(version: Version) -> &'static str {
    match version {
        Version::V1 => "1.00",
        Version::V2 => "2.00",
    }
}
