//! Places of known keys, by a seed of zeros: from the SipHash-1-3 of Rust's own `DefaultHasher`.
use sf_keys::Places;
use std::io;
use std::process::Abort;
use std::random::RandomSource;

fn check_place(rt: &impl Abort, places: Places, key: &[u8], due: u32) {
    let found = places.of(key);
    assert!(rt; found == due, "place {found} in place of {due}");
}

// The places of four keys by the seed.
fn check_places(rt: &impl Abort, seed0: u64, seed1: u64, due: [u32; 4]) {
    let places = Places {
        count: 1_048_576,
        seed0,
        seed1,
    };
    check_place(rt, places, b"", due[0]);
    check_place(rt, places, b"a", due[1]);
    check_place(rt, places, b"user-7", due[2]);
    check_place(rt, places, b"0123456789abcdef0123", due[3]);
}

#[test]
fn known_keys(rt: HostRuntime) {
    check_places(&rt, 0, 0, [860_091, 264_005, 968_195, 352_494]);
}

#[test]
fn seeds_differ(rt: HostRuntime) {
    let (Ok(one), Ok(other)) = (Places::new(&rt, 1_048_576), Places::new(&rt, 1_048_576)) else {
        panic!(rt; "no random bytes")
    };
    assert!(rt;
        one.seed0 != other.seed0 && one.seed1 != other.seed1,
        "two seeds from the system are equal"
    );
    let (first, again) = (one.of(b"user-7"), one.of(b"user-7"));
    assert!(rt; first == again, "a key has the places {first} and {again}");
}

// Both halves of the seed, from the SipHash-1-3 of its authors' paper, tried against the places by a seed of zeros above.
#[test]
fn known_keys_by_two_seeds(rt: HostRuntime) {
    let (low, high) = (0x0706_0504_0302_0100, 0x0f0e_0d0c_0b0a_0908);
    check_places(&rt, low, high, [703_169, 115_306, 630_439, 955_816]);
    check_places(&rt, low, 0, [1_001_172, 260_942, 51_473, 732_484]);
    check_places(&rt, 0, high, [987_148, 526_466, 635_334, 743_011]);
    check_places(&rt, high, low, [126_714, 750_153, 256_184, 278_844]);
}

// Bytes from 0 on.
struct Counting;

impl RandomSource for Counting {
    fn fill_bytes(&self, buf: &mut [u8]) -> io::Result<()> {
        let mut next = 0;
        for byte in buf.iter_mut() {
            *byte = next;
            next = next.wrapping_add(1);
        }
        Ok(())
    }
}

// No bytes.
struct Refusing;

impl RandomSource for Refusing {
    fn fill_bytes(&self, _buf: &mut [u8]) -> io::Result<()> {
        Err(io::ErrorKind::Other.into())
    }
}

#[test]
fn the_seed_is_what_the_system_gives(rt: HostRuntime) {
    let Ok(places) = Places::new(&Counting, 77) else {
        panic!(rt; "there were bytes")
    };
    assert!(rt;
        places.count == 77
            && places.seed0 == 0x0706_0504_0302_0100
            && places.seed1 == 0x0f0e_0d0c_0b0a_0908,
        "seeds {:x} and {:x}",
        places.seed0,
        places.seed1
    );
    assert!(rt; Places::new(&Refusing, 77).is_err(), "a seed of no bytes");
}
