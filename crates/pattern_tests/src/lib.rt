//! Examples of pattern texts: which are read, which are refused, and why.
#![tactic(auto)]

use fault::Fault;
use pattern::Pattern;

// The number and the place of the fault, or zeros if the text is read.
fn verdict(text: &[u8]) -> (u8, usize) {
    match Pattern::read(text) {
        Ok(_) => (0, 0),
        Err(f) => fault_of(f),
    }
}

fn fault_of(f: Fault) -> (u8, usize) {
    (f.number(), f.place())
}

// Whether the pattern of the text reads the word.
fn reads(text: &[u8], word: &[(u8, u8)]) -> bool {
    match Pattern::read(text) {
        Ok(p) => p.automaton.reads(word),
        Err(_) => false,
    }
}

#[cfg(test)]
mod tests {
    use super::*;

    #[test]
    fn limits(rt: HostRuntime) {
        assert_eq!(rt; verdict(&[32; 513]), (30, 512));
        assert_eq!(rt; verdict(&[32; 512]), (33, 512));
        assert_eq!(rt;
            verdict(
                b"free free free free free free free free free free free free free free free free free free free free free free free free free free free free free free free free",
            ),
            (34, 155)
        );
        assert_eq!(rt;
            verdict(
                b"free free free free free free free free free free free free free free free free free free free free free free free free free free free free free free free",
            ),
            (0, 0)
        );
        assert_eq!(rt;
            verdict(
                b"free free free free free free free free free free free free free free free free free free free free free free free free free free free free free free free empty empty",
            ),
            (0, 0)
        );
        assert_eq!(rt; verdict(b"((((((((((((((((("), (35, 16));
        assert_eq!(rt; verdict(b"((((((((((((((((free))))))))))))))))"), (0, 0));
        let mut long = [32; 512];
        long[508] = b'f';
        long[509] = b'r';
        long[510] = b'e';
        long[511] = b'e';
        assert_eq!(rt; verdict(&long), (0, 0));
    }

    #[test]
    fn tokens(rt: HostRuntime) {
        assert_eq!(rt; verdict(b"badge-pin"), (31, 5));
        assert_eq!(rt; verdict(b"bad-ge"), (32, 0));
        assert_eq!(rt; verdict(b"bagde"), (32, 0));
        assert_eq!(rt; verdict(b"free badges"), (32, 5));
        assert_eq!(rt; verdict(b"freebadge"), (32, 0));
        assert_eq!(rt; verdict(b") -"), (33, 0));
        assert_eq!(rt; verdict(b"free Zone"), (31, 5));
        assert_eq!(rt; verdict(b"free Free"), (33, 5));
        assert_eq!(rt; verdict(b"free\tpin"), (31, 4));
        assert_eq!(rt; verdict(b"badge^I"), (31, 6));
    }

    #[test]
    fn misplaced(rt: HostRuntime) {
        assert_eq!(rt; verdict(b""), (33, 0));
        assert_eq!(rt; verdict(b"badge ^ pin"), (33, 8));
        assert_eq!(rt; verdict(b"empty^A"), (33, 5));
        assert_eq!(rt; verdict(b"(badge)^A"), (33, 7));
        assert_eq!(rt; verdict(b"badge**"), (33, 6));
        assert_eq!(rt; verdict(b"badge^A^B"), (33, 7));
        assert_eq!(rt; verdict(b"|badge"), (33, 0));
        assert_eq!(rt; verdict(b"badge|"), (33, 6));
        assert_eq!(rt; verdict(b"()"), (33, 1));
        assert_eq!(rt; verdict(b"badge A"), (33, 6));
        assert_eq!(rt; verdict(b"(free | any)* )"), (33, 14));
        assert_eq!(rt; verdict(b"(free"), (33, 5));
    }

    #[test]
    fn read(rt: HostRuntime) {
        assert!(rt; reads(b"badge^A free? pin^B", &[(1, 1), (2, 2)]));
        assert!(rt; reads(b"badge^A free? pin^B", &[(1, 1), (0, 0), (2, 2)]));
        assert!(rt; !reads(b"badge^A free? pin^B", &[(1, 0), (2, 2)]));
        assert!(rt; reads(b"(free | stair^H)+", &[(7, 8), (0, 0)]));
        assert!(rt; !reads(b"(free | stair^H)+", &[]));
        assert!(rt; reads(b"empty | (any any)*", &[(3, 0), (4, 0)]));
        assert!(rt; !reads(b"(any any)*", &[(3, 0)]));
    }
}
