// Why a call refuses. Each refusal has a number (docs/ANSWERS.md has its condition).
ghost use Rattle.std.specs.Prelude.{◌≡◌};
ghost use Rattle.pkt.specs.Refusal.{number_of};
ghost use Rattle.pkt.specs.declared.refusal.ListRefusal.TheVariants.{Whole};

#[derive(Clone, Copy, PartialEq, Eq, Drop)]
pub enum Refusal {
    // More bytes than the packet, the sum or the record may have.
    TooLong = 1,
    // A piece's offset is above 8,191.
    BadOffset = 2,
    // The lent output is shorter than what is to be written.
    NoRoom = 3,
    // Fewer bytes than a header or than the total length.
    Short = 4,
    // The version is not 4, or the header length is under 5 words.
    NotIpv4 = 5,
    // The total length is under the header length.
    BadTotal = 6,
    // The header's checksum does not verify.
    BadHeader = 7,
    // A piece's key is not the assembly's.
    WrongKey = 8,
    // MF is set, and the data is not whole blocks.
    NotBlocks = 9,
    // A piece ends above 65,515.
    TooFar = 10,
    // An assembly's buffers or record are out of bounds.
    BadAssembly = 11,
    // The protocol is not 1, 6 or 17.
    OtherProtocol = 12,
    // The offset is not 0, or MF is set.
    Piece = 13,
    // The transport part is shorter than its header, TCP's data offset byte is not 0x50, or UDP's length is not that of the IPv4 payload.
    Cut = 14,
    // The transport checksum does not verify.
    BadSum = 15,
    // A headroom record, or a part of a packet, that is not within its bounds.
    BadPart = 16,
    // Microseconds above 999,999.
    BadTime = 17,
    // The header's reserved bit is set.
    Reserved = 18,
    // A table of assemblies has no slot with the key and none that is free.
    Full = 19,
    // A piece ends above what a slot of a table has room for.
    TooFarForSlot = 20,
    // There is no cutting plan for so many bytes and such a link.
    NoPlan = 21,
    // A UDP datagram is asked for without a checksum.
    NoChecksum = 22,
    // A capture does not start with document 01's file header.
    NotCapture = 23,
    // A link size below 28 or above 65,535.
    BadLink = 24,
    // A record of a capture is cut short, or above 65,535 bytes; the end of a packet lies below the one before it, or past the bytes.
    Broken = 25,
    // More than 1,000,000 packets to report on.
    TooMany = 26,
    // A table of assemblies has no assembly for the key, or none that is complete.
    NoDatagram = 27,
}

impl Refusal {
    // Its number.
    pub fn number(self) -> u8
        ensures { result ≡ number_of self }
    {
        self as u8
    }
}

// Why a call over a list refuses: for the whole of it, or for the first element that it is for, with its index.
#[derive(Clone, Copy, PartialEq, Eq, Drop)]
pub enum ListRefusal {
    Whole(Refusal),
    At(Refusal, usize),
}

impl From<Refusal> for ListRefusal {
    ghost from_gives = { λ refusal answer. answer ≡ Whole refusal };

    fn from(refusal: Refusal) -> Self {
        ListRefusal::Whole(refusal)
    }
}
