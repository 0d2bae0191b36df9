//! Words from outside, and each call once.

ghost use Rattle.std.specs.Prelude.{◌≡◌};

use rel_pointer::{RelPtr, pack, unpack, words_of};

#[test]
fn three_letters_are_one_word(rt: HostRuntime) {
    assert_eq!(rt; pack(b"abc", 0), 0x636261);
    assert_eq!(rt; pack(b"abcdefgh12", 0), 0x6867666564636261);
    assert_eq!(rt; pack(b"abcdefgh12", 1), 0x3231);
    assert_eq!(rt; pack(b"abcdefgh12", 2), 0);
    assert_eq!(rt; words_of(10), 2);
}

#[test]
fn a_word_is_cut_at_the_end(rt: HostRuntime) {
    let mut out = [0u8; 10];
    unpack(0x6867666564636261, &mut out, 0);
    unpack(0x3333333333333231, &mut out, 1);
    assert_eq!(rt; out, *b"abcdefgh12");
}

#[test]
fn a_pointer_moves(rt: HostRuntime) {
    let place = RelPtr::of(7).plus(3);
    assert!(rt; place.is_valid());
    assert!(rt; place == RelPtr::of(10));
    assert_eq!(rt; place.word(), 10);
    assert!(rt; !RelPtr::of(0).is_valid());
}
