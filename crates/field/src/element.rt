// One element of the field, by a table of doubles. It is what the laws are about; stripes go over whole words.
// It touches nothing.
ghost use Rattle.std.specs.Prelude.{◌≡◌, ◌<◌};
ghost use Rattle.field.specs.Field.{sum, double, product};

use crate::product::{Doubles, times};
use std::marker::Model;
use std::ops::{Add, Mul};

#[derive(Clone, Copy, PartialEq, Eq, Debug)]
pub struct Element {
    byte: u8,
}

// An element is its byte.
impl Model for Element {
    ghost use Rattle.std.specs.Prelude.{ℕ, ◌<◌};

    ghost Value = { ℕ };

    ghost view = { λ e. e.byte };

    ghost invariant = { λ e. e.byte < 256 };

    ghost inverse = { λ n. record { byte = n } };
}

// Twice each element.
const TWICE: [u8; 256] = *b"\x00\x02\x04\x06\x08\x0a\x0c\x0e\x10\x12\x14\x16\x18\x1a\x1c\x1e\
\x20\x22\x24\x26\x28\x2a\x2c\x2e\x30\x32\x34\x36\x38\x3a\x3c\x3e\
\x40\x42\x44\x46\x48\x4a\x4c\x4e\x50\x52\x54\x56\x58\x5a\x5c\x5e\
\x60\x62\x64\x66\x68\x6a\x6c\x6e\x70\x72\x74\x76\x78\x7a\x7c\x7e\
\x80\x82\x84\x86\x88\x8a\x8c\x8e\x90\x92\x94\x96\x98\x9a\x9c\x9e\
\xa0\xa2\xa4\xa6\xa8\xaa\xac\xae\xb0\xb2\xb4\xb6\xb8\xba\xbc\xbe\
\xc0\xc2\xc4\xc6\xc8\xca\xcc\xce\xd0\xd2\xd4\xd6\xd8\xda\xdc\xde\
\xe0\xe2\xe4\xe6\xe8\xea\xec\xee\xf0\xf2\xf4\xf6\xf8\xfa\xfc\xfe\
\x1d\x1f\x19\x1b\x15\x17\x11\x13\x0d\x0f\x09\x0b\x05\x07\x01\x03\
\x3d\x3f\x39\x3b\x35\x37\x31\x33\x2d\x2f\x29\x2b\x25\x27\x21\x23\
\x5d\x5f\x59\x5b\x55\x57\x51\x53\x4d\x4f\x49\x4b\x45\x47\x41\x43\
\x7d\x7f\x79\x7b\x75\x77\x71\x73\x6d\x6f\x69\x6b\x65\x67\x61\x63\
\x9d\x9f\x99\x9b\x95\x97\x91\x93\x8d\x8f\x89\x8b\x85\x87\x81\x83\
\xbd\xbf\xb9\xbb\xb5\xb7\xb1\xb3\xad\xaf\xa9\xab\xa5\xa7\xa1\xa3\
\xdd\xdf\xd9\xdb\xd5\xd7\xd1\xd3\xcd\xcf\xc9\xcb\xc5\xc7\xc1\xc3\
\xfd\xff\xf9\xfb\xf5\xf7\xf1\xf3\xed\xef\xe9\xeb\xe5\xe7\xe1\xe3";

impl From<u8> for Element {
    ghost from_gives = { λ byte r. r ≡ byte };

    fn from(byte: u8) -> Element {
        Element { byte }
    }
}

impl From<Element> for u8 {
    ghost from_gives = { λ e r. r ≡ e };

    fn from(e: Element) -> u8 {
        e.byte
    }
}

// A sum of elements has no carry.
impl Add for Element {
    type Output = Element;

    ghost add_gives = { λ a b r. r ≡ sum a b };

    fn add(self, other: Element) -> Element {
        Element {
            byte: self.byte ^ other.byte,
        }
    }
}

// Doubles are looked up.
impl Doubles for Element {
    ghost number = { λ e. e };

    ghost double = { double };

    fn nought() -> Element {
        Element::from(0)
    }

    fn plus(self, other: Element) -> Element {
        self + other
    }

    fn twice(self) -> Element {
        Element {
            byte: TWICE[usize::from(self.byte)],
        }
    }
}

// The product, from the highest bit of `self` on.
impl Mul for Element {
    type Output = Element;

    ghost mul_gives = { λ a b r. r ≡ product a b };

    fn mul(self, other: Element) -> Element {
        times(self.byte, other)
    }
}
