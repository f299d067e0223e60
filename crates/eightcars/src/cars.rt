// What the cars send: a telemetry datagram each, cut in three pieces of up to two blocks.
use assembly::Key;
use ezpkt::build::{Request, UdpDatagram};
use ezpkt::ip4::Template;
use ezpkt::{Marks, build, ip4, part};

const CORE: u32 = 0x0a000064;

// A packet: the first n bytes. (An array and a length: piece and is_telemetry make one for each call, and have no runtime to allocate by.)
#[derive(Clone, Copy, Drop)]
pub(crate) struct Whole {
    pub(crate) bytes: [u8; 80],
    pub(crate) n: usize,
}

impl Whole {
    // Its bytes.
    pub(crate) fn packet(&self) -> &[u8] {
        part::front(&self.bytes, self.n)
    }
}

// The car with number n has the address 10.0.0.n.
fn address(car: u8) -> u32 {
    0x0a000000 + car as u32
}

pub(crate) fn key_of(car: u8) -> Key {
    Key {
        saddr: address(car),
        daddr: CORE,
        id: 0,
        protocol: 17,
    }
}

pub(crate) fn template_of(car: u8) -> Template {
    Template {
        tos: 0,
        id: 0,
        df: false,
        evil: false,
        ttl: 64,
        protocol: 17,
        saddr: address(car),
        daddr: CORE,
    }
}

// A datagram of a car that carries these words, with these flags and this offset.
pub(crate) fn datagram(car: u8, frag_off: u16, words: &[u8]) -> Whole {
    let request = Request::Udp(UdpDatagram {
        saddr: address(car),
        daddr: CORE,
        sport: 40000,
        dport: 80,
        frag_off,
        csum: true,
        marks: Marks::default(),
    });
    let mut bytes = [0u8; 80];
    let n = build::build(request, words, &mut bytes).unwrap_or(0);
    Whole { bytes, n }
}

// The telemetry of a car: each has another length.
fn telemetry(car: u8) -> Whole {
    match car {
        1 => datagram(1, 0, b"car 1, lap 12: 287 km/h, ok"),
        2 => datagram(2, 0, b"car 2, lap 12: 291 km/h, wet"),
        3 => datagram(3, 0, b"car 3, lap 11: 188 km/h, rain"),
        4 => datagram(4, 0, b"car 4, lap 12: 302 km/h, grass"),
        5 => datagram(5, 0, b"car 5, lap 10: 254 km/h, tyres 3"),
        6 => datagram(6, 0, b"car 6, lap 12: 279 km/h, fuel 9"),
        7 => datagram(7, 0, b"car 7, lap 12: 266 km/h, fuel 170"),
        8 => datagram(8, 0, b"car 8, lap 9: 97 km/h, brakes hot!"),
        _ => datagram(9, 0, b"car 9, lap 12: 305 km/h, in the tow"),
    }
}

// Whether these bytes are the IPv4 payload of a car's telemetry.
pub(crate) fn is_telemetry(car: u8, got: &[u8]) -> bool {
    let whole = telemetry(car);
    got == part::back(whole.packet(), 20)
}

// Two blocks from block off of the telemetry of the car `of`, as far as they are there, sent by `car`.
pub(crate) fn piece(car: u8, of: u8, off: u16) -> [u8; 36] {
    let whole = telemetry(of);
    let mut out = [0u8; 36];
    let _ = ip4::fragment(
        template_of(car),
        part::back(whole.packet(), 20),
        off,
        2,
        &mut out,
    );
    out
}
