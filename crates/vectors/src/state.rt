// What the cases are calls on, and what the calls of the last case did.
use ezpkt::icmp4::IcmpFlow;
use packet::Packet;
use pkt::refusal::Refusal;
use tcp4::TcpFlow;

// The flows, once a case has opened each; the packet, with its largest end. Of the last call: how many
// packets it wrote, none where it was refused, and where the last of them ends; where the first and the
// second end, if it is a TCP flow's; what refused it, if it is a piece or a datagram. Of
// all calls of the case: how many bytes they wrote, their digest, whether each wrote a packet and no byte behind
// it, and whether each was refused by 22 and wrote no byte. Then whether the case came out as it should.
//
// count, first, second and end are numbers, and no Sent: they tell of calls that answer a length, a Sent and a
// Grown alike.
#[derive(Clone, Copy, Drop)]
pub(crate) struct Now {
    pub(crate) icmp: Option<IcmpFlow>,
    pub(crate) tcp: Option<TcpFlow>,
    pub(crate) packet: Packet,
    pub(crate) room: usize,
    pub(crate) count: u8,
    pub(crate) first: usize,
    pub(crate) second: usize,
    pub(crate) end: usize,
    pub(crate) refusal: Option<Refusal>,
    pub(crate) bytes: u32,
    pub(crate) digest: u32,
    pub(crate) kept: bool,
    pub(crate) refused: bool,
    pub(crate) same: bool,
}

// Before the first case: no flow is open, and every call on the packet is refused. The packet is no Option: a
// record that every call refuses is a packet as any other, and each case on it differs then.
pub(crate) fn start() -> Now {
    Now {
        icmp: None,
        tcp: None,
        packet: Packet {
            headroom: 1,
            end: 0,
        },
        room: 0,
        count: 0,
        first: 0,
        second: 0,
        end: 0,
        refusal: None,
        bytes: 0,
        digest: 0,
        kept: true,
        refused: true,
        same: true,
    }
}

// The case came out as it should, or did not.
pub(crate) fn told(now: Now, same: bool) -> Now {
    Now { same, ..now }
}

// The call wrote one packet of n bytes.
pub(crate) fn wrote(now: Now, n: usize) -> Now {
    Now {
        count: 1,
        end: n,
        ..now
    }
}

// The call wrote what it answered, or was refused: now has no packet yet.
pub(crate) fn built(now: Now, built: Result<usize, Refusal>) -> Now {
    match built {
        Ok(n) => wrote(now, n),
        Err(refusal) => Now {
            refusal: Some(refusal),
            ..now
        },
    }
}
