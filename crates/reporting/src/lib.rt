// A report of one TCP flow over the packets of a lent slice: what each side sent, and how it arrived.
#![tactic(auto)]

ghost use Rattle.std.specs.Prelude.{◌≡◌, ◌<◌, ◌≤◌, true, length, IfSome, IfNone};
ghost use Rattle.pkt.specs.Answers.{most_bytes};
ghost use Rattle.tcp4.specs.Tcp4.{set_in};
ghost use Rattle.reporting.specs.Sides.{ahead, arrival_of, behind_it, next_by, side_after, Few};
ghost use Rattle.reporting.specs.Packets.{passes, goes, sided, tcp_class, class_of};
ghost use Rattle.reporting.specs.Report.{cut_at, first_wrong, report_after, HasRoom, report_of, most_packets, InOrder, Reports};

use ezpkt::SocketAddrV4;
use inspect::header::IpRead;
use inspect::{check, header, tcp};
use pkt::ipv4;
use pkt::ipv4::{proto, tcp_hdr};
use pkt::refusal::{ListRefusal, Refusal};
use tcp4::Side;

// The most packets of a report.
pub const PACKETS: usize = 1000000;

// Half of the numbers that a sequence number can be.
const HALF: u32 = 0x80000000;

// What one side sent: segments, payload bytes, SYNs, FINs, how many segments arrived as expected, early and late, and the sequence number that is
// expected next, which is 0 before the first segment. (No Option: that there was none is told by segments, and nothing reads next then.)
#[derive(Clone, Copy, Default, Drop)]
pub struct Tally {
    pub segments: usize,
    pub bytes: usize,
    pub syns: usize,
    pub fins: usize,
    pub expected: usize,
    pub early: usize,
    pub late: usize,
    pub next: u32,
}

// Both sides of a flow, how many packets failed the check, and how many were of other flows.
#[derive(Clone, Copy, Default, Drop)]
pub struct Report {
    pub cl: Tally,
    pub sv: Tally,
    pub failed: usize,
    pub others: usize,
}

// A segment: its sequence number, its flags and its payload bytes.
#[derive(Clone, Copy, Drop)]
struct Segment {
    seq: u32,
    flags: u8,
    size: usize,
}

// How a segment arrives.
#[derive(Clone, Copy, PartialEq, Eq, Drop)]
enum Arrival {
    Expected,
    Early,
    Late,
}

// What a packet counts as.
#[derive(Clone, Copy, Drop)]
enum Class {
    Failed,
    Other,
    Own(Side, Segment),
}

// How far a sequence number lies ahead of another, going up.
fn ahead_of(next: u32, seq: u32) -> u32
    ensures { result ≡ ahead next seq }
{
    seq.wrapping_sub(next)
}

fn arrives(t: Tally, s: Segment) -> Arrival
    ensures { result ≡ arrival_of t s }
{
    let gap = ahead_of(t.next, s.seq);
    if t.segments == 0 {
        return Arrival::Expected;
    }
    if gap == 0 {
        return Arrival::Expected;
    }
    if gap < HALF {
        return Arrival::Early;
    }
    Arrival::Late
}

// 1 where a control bit is set in the flags, else 0.
fn set_in(flags: u8, bit: u8) -> usize
    requires { 1 ≤ bit }
    ensures { result ≡ set_in flags bit }
{
    (flags / bit % 2) as usize
}

// The sequence number behind a segment.
fn behind(s: Segment) -> u32
    requires { s.size ≤ most_bytes }
    ensures { result ≡ behind_it s }
{
    let consumed = s.size + set_in(s.flags, ipv4::TCP_SYN) + set_in(s.flags, ipv4::TCP_FIN);
    s.seq.wrapping_add(consumed as u32)
}

fn next_by(a: Arrival, next: u32, s: Segment) -> u32
    requires { s.size ≤ most_bytes }
    ensures { result ≡ next_by a next s }
{
    match a {
        Arrival::Expected | Arrival::Early => behind(s),
        Arrival::Late => next,
    }
}

// A side after one segment more.
#[tactic(auto, unfolding(crate::specs::Sides::tallied))]
fn side_after(t: Tally, s: Segment) -> Tally
    requires { (s.size ≤ most_bytes) × Few most_packets t }
    ensures { result ≡ side_after t s }
{
    let a = arrives(t, s);
    Tally {
        segments: t.segments + 1,
        bytes: t.bytes + s.size,
        syns: t.syns + set_in(s.flags, ipv4::TCP_SYN),
        fins: t.fins + set_in(s.flags, ipv4::TCP_FIN),
        expected: t.expected + usize::from(a == Arrival::Expected),
        early: t.early + usize::from(a == Arrival::Early),
        late: t.late + usize::from(a == Arrival::Late),
        next: next_by(a, t.next, s),
    }
}

// Whether a segment that goes from one end to another goes from a to b.
fn goes(from: SocketAddrV4, to: SocketAddrV4, a: SocketAddrV4, b: SocketAddrV4) -> bool
    ensures { result ≡ goes from to a b }
{
    from == a && to == b
}

// cl and sv go apart here and below, as flow_report is asked: document 02 names a client and a server, and a lent byte slice and the end of each packet in
// it.

// The class of a segment between two ends, for the flow between cl and sv.
fn sided(
    cl: SocketAddrV4,
    sv: SocketAddrV4,
    from: SocketAddrV4,
    to: SocketAddrV4,
    s: Segment,
) -> Class
    ensures { result ≡ sided cl sv from to s }
{
    if goes(from, to, cl, sv) {
        return Class::Own(Side::Client, s);
    }
    if goes(from, to, sv, cl) {
        return Class::Own(Side::Server, s);
    }
    Class::Other
}

// The class of a transport part of n bytes with these headers.
fn tcp_class(cl: SocketAddrV4, sv: SocketAddrV4, h: IpRead, t: tcp_hdr, n: usize) -> Class
    requires { 20 ≤ n }
    ensures { result ≡ tcp_class cl sv h t n }
{
    let from = SocketAddrV4 {
        ip: h.saddr,
        port: t.sport,
    };
    let to = SocketAddrV4 {
        ip: h.daddr,
        port: t.dport,
    };
    let s = Segment {
        seq: t.seq,
        flags: t.flags,
        size: n - 20,
    };
    sided(cl, sv, from, to, s)
}

// The class of a packet that passes the check: it has a header, and where that is TCP's protocol, a TCP header.
fn passed_class(cl: SocketAddrV4, sv: SocketAddrV4, packet: &[u8]) -> Class
    requires { passes packet.now ≡ true }
    ensures { result ≡ class_of cl sv packet.now }
{
    let Ok(h) = header::frame(packet) else {
        return Class::Failed;
    };
    if h.protocol != proto::TCP {
        return Class::Other;
    }
    let start = h.start;
    let end = h.end;
    let part = &packet[start..end];
    let Ok(t) = tcp::read(part) else {
        return Class::Other;
    };
    tcp_class(cl, sv, h, t, part.len())
}

// The class of a packet, which is checked once.
#[tactic(auto, unfolding(crate::specs::Packets::class_of))]
fn class_of(cl: SocketAddrV4, sv: SocketAddrV4, packet: &[u8]) -> Class
    ensures { result ≡ class_of cl sv packet.now }
{
    match check::check(packet) {
        Ok(_) => passed_class(cl, sv, packet),
        Err(_) => Class::Failed,
    }
}

// A report after one packet more.
#[tactic(auto, unfolding(crate::specs::Report::report_after, crate::specs::Report::HasRoom))]
fn report_after(r: Report, class: Class) -> Report
    requires { HasRoom r class }
    ensures { result ≡ report_after r class }
{
    match class {
        Class::Failed => Report {
            failed: r.failed + 1,
            ..r
        },
        Class::Other => Report {
            others: r.others + 1,
            ..r
        },
        Class::Own(Side::Client, s) => Report {
            cl: side_after(r.cl, s),
            ..r
        },
        Class::Own(Side::Server, s) => Report {
            sv: side_after(r.sv, s),
            ..r
        },
    }
}

// The first index whose end lies below the one before or past n bytes, where there is one.
#[tactic(auto, using(crate::proofs::Cutting::below_here, crate::proofs::Cutting::past_here, crate::proofs::Cutting::right_here, crate::proofs::Cutting::none_left))]
fn first_wrong(ends: &[usize], n: usize) -> Option<usize>
    ensures found { IfSome result (λ i. (i < length ends.now) × (i ≡ first_wrong 0 n ends.now)) }
    ensures none { IfNone result (first_wrong 0 n ends.now ≡ length ends.now) }
{
    let mut at = 0;
    for (i, &end) in ends.iter().enumerate() {
        if end < at {
            return Some(i);
        }
        if n < end {
            return Some(i);
        }
        at = end;
    }
    None
}

// The report of packets whose ends are in order.
#[tactic(auto, using(crate::proofs::Turning::next_right, crate::proofs::Turning::next_room, crate::proofs::Turning::turns, crate::proofs::Turning::ends))]
fn report_of(packets: &[u8], ends: &[usize], cl: SocketAddrV4, sv: SocketAddrV4) -> Report
    requires { InOrder packets.now ends.now }
    ensures { result ≡ report_of cl sv (cut_at 0 ends.now packets.now) }
{
    let mut r = Report::default();
    let mut at = 0;
    for &end in ends {
        r = report_after(r, class_of(cl, sv, &packets[at..end]));
        at = end;
    }
    r
}

// The report of the flow between cl and sv over packets that stand one behind the other and end so, each checked once; or a refusal.
pub fn flow_report(
    packets: &[u8],
    ends: &[usize],
    cl: SocketAddrV4,
    sv: SocketAddrV4,
) -> Result<Report, ListRefusal>
    ensures { Reports packets.now ends.now cl sv result }
{
    if PACKETS < ends.len() {
        return Err(ListRefusal::Whole(Refusal::TooMany));
    }
    if let Some(first) = first_wrong(ends, packets.len()) {
        return Err(ListRefusal::At(Refusal::Broken, first));
    }
    Ok(report_of(packets, ends, cl, sv))
}
