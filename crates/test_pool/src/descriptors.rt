//! Descriptors of the datasheet's form, written out by hand.
use tx_descriptor::{Legacy, Unsupported};

/// A descriptor's bytes and fields.
struct Sample {
    name: &'static str,
    bytes: [u8; 16],
    fields: Legacy,
}

// Two segments of which neither ends its frame, one that does, and the same after the device is done; and single bits.
static SAMPLES: [Sample; 5] = [
    Sample {
        name: "descriptors_have_their_bytes, 0",
        bytes: [0, 2, 0x10, 0, 0, 0, 0, 0, 6, 0, 0, 0, 0, 0, 0, 0],
        fields: Legacy {
            address: 1_049_088,
            len: 6,
            eop: false,
            rs: false,
            dd: false,
        },
    },
    Sample {
        name: "descriptors_have_their_bytes, 1",
        bytes: [0, 0, 0x30, 0, 0, 0, 0, 0, 0x58, 2, 0, 0, 0, 0, 0, 0],
        fields: Legacy {
            address: 3_145_728,
            len: 600,
            eop: false,
            rs: false,
            dd: false,
        },
    },
    Sample {
        name: "descriptors_have_their_bytes, 2",
        bytes: [6, 2, 0x10, 0, 0, 0, 0, 0, 2, 0, 0, 9, 0, 0, 0, 0],
        fields: Legacy {
            address: 1_049_094,
            len: 2,
            eop: true,
            rs: true,
            dd: false,
        },
    },
    Sample {
        name: "descriptors_have_their_bytes, 3",
        bytes: [6, 2, 0x10, 0, 0, 0, 0, 0, 2, 0, 0, 9, 1, 0, 0, 0],
        fields: Legacy {
            address: 1_049_094,
            len: 2,
            eop: true,
            rs: true,
            dd: true,
        },
    },
    Sample {
        name: "single_bits_keep_their_fields",
        bytes: [0, 0, 0, 0, 0, 0, 0, 0x80, 0, 0x80, 0, 8, 1, 0, 0, 0],
        fields: Legacy {
            address: 1 << 63,
            len: 1 << 15,
            eop: false,
            rs: true,
            dd: true,
        },
    },
];

// The only calls of these two. They have no clauses, so that no assertion carries those of the calls.
fn bytes_of(descriptor: Legacy) -> [u8; 16] {
    descriptor.to_bytes()
}

fn read(bytes: [u8; 16]) -> Result<Legacy, Unsupported> {
    Legacy::of_bytes(&bytes)
}

#[test]
fn descriptors_have_their_bytes(rt: HostRuntime) {
    for sample in &SAMPLES {
        assert!(rt; bytes_of(sample.fields) == sample.bytes, "{}", sample.name);
        assert!(rt; read(sample.bytes) == Ok(sample.fields), "{}", sample.name);
    }
}

// All but CSO, CSS, the special field, the command bits but EOP and RS, and the status bits but DD.
fn is_allowed(byte: u8, bit: u8) -> bool {
    match byte {
        0..=9 => true,
        11 => bit == 0 || bit == 3,
        12 => bit == 0,
        _ => false,
    }
}

// 16 bytes of which one bit is 1.
fn lone_bit(byte: u8, bit: u8) -> [u8; 16] {
    let mut bytes = [0; 16];
    if byte < 16 && bit < 8 {
        bytes[byte as usize] = 1 << bit;
    }
    bytes
}

#[test]
fn each_bit_outside_the_profile_is_refused(rt: HostRuntime) {
    for byte in 0..16u8 {
        for bit in 0..8u8 {
            let answer = read(lone_bit(byte, bit));
            if is_allowed(byte, bit) {
                assert!(rt; answer.is_ok(), "{byte} {bit}");
            } else {
                assert!(rt; answer == Err(Unsupported { byte }), "{byte} {bit}");
            }
        }
    }
}

#[test]
fn the_first_of_two_bytes_is_named(rt: HostRuntime) {
    let bytes = [0, 0, 0, 0, 0, 0, 0, 0, 0, 0, 0, 0x20, 0, 1, 0, 0];
    assert!(rt; read(bytes) == Err(Unsupported { byte: 11 }));
}
