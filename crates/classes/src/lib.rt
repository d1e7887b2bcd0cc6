// Border classes (document 01, "Border classes"; document 02, T-02): the class of a border by its letters, and letters that say a surface right.
// All of it is proved, and no public function has a `requires`.
#![tactic(auto)]

ghost use Rattle.std.specs.Prelude.{◌≡◌};
ghost use Rattle.classes.specs.Classes.{begins_with, ends_in, begins_in_kind2, is_road, is_water, is_other, class_of, index_of, is_surface};

use heading::Header;
use record::is_same;

// In the paper's order.
#[derive(Clone, Copy)]
pub enum Class {
    Confine,
    Other,
    Road,
    Water,
    Building,
    Parcel,
}

// How many letters a sheet's name has.
const NAME_LETTERS: usize = 11;

// The fewest letters of a surface right.
const SURFACE_LETTERS: usize = 3;

#[tactic(auto, unfolding(crate::specs::Classes::begins_with))]
fn begins_with(byte: u8, s: &[u8]) -> bool
    ensures { result ≡ begins_with byte s.now }
{
    s.first() == Some(&byte)
}

#[tactic(auto, unfolding(crate::specs::Classes::ends_in))]
fn ends_in(byte: u8, s: &[u8]) -> bool
    ensures { result ≡ ends_in byte s.now }
{
    s.last() == Some(&byte)
}

// Letters that begin with a byte, in kind 2.
#[tactic(auto, unfolding(crate::specs::Classes::begins_in_kind2))]
fn begins_in_kind2(byte: u8, kind: usize, s: &[u8]) -> bool
    ensures { result ≡ begins_in_kind2 byte kind s.now }
{
    kind == 2 && begins_with(byte, s)
}

#[tactic(auto, unfolding(crate::specs::Classes::is_road))]
fn is_road(kind: usize, s: &[u8]) -> bool
    ensures { result ≡ is_road kind s.now }
{
    is_same(s, b"STRADA") || begins_in_kind2(b'S', kind, s)
}

#[tactic(auto, unfolding(crate::specs::Classes::is_water))]
fn is_water(kind: usize, s: &[u8]) -> bool
    ensures { result ≡ is_water kind s.now }
{
    is_same(s, b"ACQUA") || begins_in_kind2(b'A', kind, s)
}

// Letters as long as a sheet's name, in kind 3.
#[tactic(auto, unfolding(crate::specs::Classes::is_other))]
fn is_other(kind: usize, s: &[u8]) -> bool
    ensures { result ≡ is_other kind s.now }
{
    kind == 3 && s.len() == NAME_LETTERS
}

// The class of a border with these letters: the first rule that holds.
#[tactic(auto, unfolding(crate::specs::Classes::class_of))]
pub fn class_of(header: Header, s: &[u8]) -> Class
    ensures { result ≡ class_of header.kind header.name s.now }
{
    if is_same(s, &header.name) {
        return Class::Confine;
    }
    if is_other(header.kind, s) {
        return Class::Other;
    }
    if is_road(header.kind, s) {
        return Class::Road;
    }
    if is_water(header.kind, s) {
        return Class::Water;
    }
    if ends_in(b'+', s) {
        return Class::Building;
    }
    Class::Parcel
}

// A class's place in the paper's order, from 0.
pub fn index_of(class: Class) -> usize
    ensures { result ≡ index_of class }
{
    match class {
        Class::Confine => 0,
        Class::Other => 1,
        Class::Road => 2,
        Class::Water => 3,
        Class::Building => 4,
        Class::Parcel => 5,
    }
}

// At least three letters, from `(` to `)`.
#[tactic(auto, unfolding(crate::specs::Classes::is_surface))]
pub fn is_surface(s: &[u8]) -> bool
    ensures { result ≡ is_surface s.now }
{
    s.len() >= SURFACE_LETTERS && begins_with(b'(', s) && ends_in(b')', s)
}
