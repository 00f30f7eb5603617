//! Tuples of two to twelve parts, whose text is the texts of their members in order.
#![tactic(auto, using(crate::proofs::OfTexts::Parts::parts))]

ghost use Rattle.std.specs.Fmt.{option_append};
ghost use Rattle.std.specs.Prelude.{◌+◌};
ghost use Rattle.lexical_parts.specs.Sequence.{◌then◌};

use crate::part::Part;
use crate::sealed::Sealed;
use crate::show::Show;
use std::fmt;

// Each length has an `impl` of its own, because `rt ci` refuses one that a macro of ours writes. A tuple of three
// members or more does what the pair of its first member and of the tuple of the others does. From eight members on a
// pattern names them, because that is shorter than their fields.
impl<A: Part, B: Part> Part for (A, B) {
    ghost is_text = { λ p. A.is_text p.0 then B.is_text p.1 };

    ghost is_valid = { λ p. A.is_valid p.0 × B.is_valid p.1 };

    ghost room = { λ p. A.room p.0 + B.room p.1 };

    ghost is_utf8 = { λ p. A.is_utf8 p.0 × B.is_utf8 p.1 };

    fn room(self) -> usize {
        self.0.room().saturating_add(self.1.room())
    }

    fn text_len(self) -> Option<usize> {
        let first = self.0.text_len()?;
        first.checked_add(self.1.text_len()?)
    }

    fn write_to(self, buffer: &mut [u8]) -> usize {
        let first = self.0.write_to(buffer);
        first + self.1.write_to(&mut buffer[first..])
    }

    fn is_known_valid_and_utf8(self, sealed: Sealed) -> bool {
        self.0.is_known_valid_and_utf8(sealed) && self.1.is_known_valid_and_utf8(sealed)
    }

    fn room_bound(self, sealed: Sealed) -> usize {
        self.0
            .room_bound(sealed)
            .saturating_add(self.1.room_bound(sealed))
    }
}

impl<A: Show, B: Show> Show for (A, B) {
    ghost text = { λ p. option_append (A.text p.0) (B.text p.1) };

    fn is_showable(self) -> bool {
        self.0.is_showable() && self.1.is_showable()
    }

    fn write_pieces<O: fmt::Write>(self, out: &mut O) -> fmt::Result {
        self.0.write_pieces(out)?;
        self.1.write_pieces(out)
    }
}

impl<A: Part, B: Part, C: Part> Part for (A, B, C) {
    ghost is_text = { λ p. A.is_text p.0 then B.is_text p.1 then C.is_text p.2 };

    ghost is_valid = { λ p. A.is_valid p.0 × (B.is_valid p.1 × C.is_valid p.2) };

    ghost room = { λ p. A.room p.0 + (B.room p.1 + C.room p.2) };

    ghost is_utf8 = { λ p. A.is_utf8 p.0 × (B.is_utf8 p.1 × C.is_utf8 p.2) };

    fn room(self) -> usize {
        (self.0, (self.1, self.2)).room()
    }

    fn text_len(self) -> Option<usize> {
        (self.0, (self.1, self.2)).text_len()
    }

    fn write_to(self, buffer: &mut [u8]) -> usize {
        (self.0, (self.1, self.2)).write_to(buffer)
    }

    fn is_known_valid_and_utf8(self, sealed: Sealed) -> bool {
        (self.0, (self.1, self.2)).is_known_valid_and_utf8(sealed)
    }

    fn room_bound(self, sealed: Sealed) -> usize {
        (self.0, (self.1, self.2)).room_bound(sealed)
    }
}

impl<A: Show, B: Show, C: Show> Show for (A, B, C) {
    ghost text = { λ p. option_append (A.text p.0) (option_append (B.text p.1) (C.text p.2)) };

    fn is_showable(self) -> bool {
        (self.0, (self.1, self.2)).is_showable()
    }

    fn write_pieces<O: fmt::Write>(self, out: &mut O) -> fmt::Result {
        (self.0, (self.1, self.2)).write_pieces(out)
    }
}

impl<A: Part, B: Part, C: Part, D: Part> Part for (A, B, C, D) {
    ghost is_text = { λ p. A.is_text p.0 then B.is_text p.1 then C.is_text p.2 then D.is_text p.3 };

    ghost is_valid = { λ p. A.is_valid p.0 × (B.is_valid p.1 × (C.is_valid p.2 × D.is_valid p.3)) };

    ghost room = { λ p. A.room p.0 + (B.room p.1 + (C.room p.2 + D.room p.3)) };

    ghost is_utf8 = { λ p. A.is_utf8 p.0 × (B.is_utf8 p.1 × (C.is_utf8 p.2 × D.is_utf8 p.3)) };

    fn room(self) -> usize {
        (self.0, (self.1, self.2, self.3)).room()
    }

    fn text_len(self) -> Option<usize> {
        (self.0, (self.1, self.2, self.3)).text_len()
    }

    fn write_to(self, buffer: &mut [u8]) -> usize {
        (self.0, (self.1, self.2, self.3)).write_to(buffer)
    }

    fn is_known_valid_and_utf8(self, sealed: Sealed) -> bool {
        (self.0, (self.1, self.2, self.3)).is_known_valid_and_utf8(sealed)
    }

    fn room_bound(self, sealed: Sealed) -> usize {
        (self.0, (self.1, self.2, self.3)).room_bound(sealed)
    }
}

impl<A: Show, B: Show, C: Show, D: Show> Show for (A, B, C, D) {
    ghost text = { λ p. option_append (A.text p.0) (option_append (B.text p.1) (option_append (C.text p.2)
        (D.text p.3))) };

    fn is_showable(self) -> bool {
        (self.0, (self.1, self.2, self.3)).is_showable()
    }

    fn write_pieces<O: fmt::Write>(self, out: &mut O) -> fmt::Result {
        (self.0, (self.1, self.2, self.3)).write_pieces(out)
    }
}

impl<A: Part, B: Part, C: Part, D: Part, E: Part> Part for (A, B, C, D, E) {
    ghost is_text = { λ p. A.is_text p.0 then B.is_text p.1 then C.is_text p.2 then D.is_text p.3
        then E.is_text p.4 };

    ghost is_valid = { λ p. A.is_valid p.0 × (B.is_valid p.1 × (C.is_valid p.2 × (D.is_valid p.3
        × E.is_valid p.4))) };

    ghost room = { λ p. A.room p.0 + (B.room p.1 + (C.room p.2 + (D.room p.3 + E.room p.4))) };

    ghost is_utf8 = { λ p. A.is_utf8 p.0 × (B.is_utf8 p.1 × (C.is_utf8 p.2 × (D.is_utf8 p.3
        × E.is_utf8 p.4))) };

    fn room(self) -> usize {
        (self.0, (self.1, self.2, self.3, self.4)).room()
    }

    fn text_len(self) -> Option<usize> {
        (self.0, (self.1, self.2, self.3, self.4)).text_len()
    }

    fn write_to(self, buffer: &mut [u8]) -> usize {
        (self.0, (self.1, self.2, self.3, self.4)).write_to(buffer)
    }

    fn is_known_valid_and_utf8(self, sealed: Sealed) -> bool {
        (self.0, (self.1, self.2, self.3, self.4)).is_known_valid_and_utf8(sealed)
    }

    fn room_bound(self, sealed: Sealed) -> usize {
        (self.0, (self.1, self.2, self.3, self.4)).room_bound(sealed)
    }
}

impl<A: Show, B: Show, C: Show, D: Show, E: Show> Show for (A, B, C, D, E) {
    ghost text = { λ p. option_append (A.text p.0) (option_append (B.text p.1) (option_append (C.text p.2)
        (option_append (D.text p.3) (E.text p.4)))) };

    fn is_showable(self) -> bool {
        (self.0, (self.1, self.2, self.3, self.4)).is_showable()
    }

    fn write_pieces<O: fmt::Write>(self, out: &mut O) -> fmt::Result {
        (self.0, (self.1, self.2, self.3, self.4)).write_pieces(out)
    }
}

impl<A: Part, B: Part, C: Part, D: Part, E: Part, F: Part> Part for (A, B, C, D, E, F) {
    ghost is_text = { λ p. A.is_text p.0 then B.is_text p.1 then C.is_text p.2 then D.is_text p.3
        then E.is_text p.4 then F.is_text p.5 };

    ghost is_valid = { λ p. A.is_valid p.0 × (B.is_valid p.1 × (C.is_valid p.2 × (D.is_valid p.3
        × (E.is_valid p.4 × F.is_valid p.5)))) };

    ghost room = { λ p. A.room p.0 + (B.room p.1 + (C.room p.2 + (D.room p.3 + (E.room p.4
        + F.room p.5)))) };

    ghost is_utf8 = { λ p. A.is_utf8 p.0 × (B.is_utf8 p.1 × (C.is_utf8 p.2 × (D.is_utf8 p.3
        × (E.is_utf8 p.4 × F.is_utf8 p.5)))) };

    fn room(self) -> usize {
        (self.0, (self.1, self.2, self.3, self.4, self.5)).room()
    }

    fn text_len(self) -> Option<usize> {
        (self.0, (self.1, self.2, self.3, self.4, self.5)).text_len()
    }

    fn write_to(self, buffer: &mut [u8]) -> usize {
        (self.0, (self.1, self.2, self.3, self.4, self.5)).write_to(buffer)
    }

    fn is_known_valid_and_utf8(self, sealed: Sealed) -> bool {
        (self.0, (self.1, self.2, self.3, self.4, self.5)).is_known_valid_and_utf8(sealed)
    }

    fn room_bound(self, sealed: Sealed) -> usize {
        (self.0, (self.1, self.2, self.3, self.4, self.5)).room_bound(sealed)
    }
}

impl<A: Show, B: Show, C: Show, D: Show, E: Show, F: Show> Show for (A, B, C, D, E, F) {
    ghost text = { λ p. option_append (A.text p.0) (option_append (B.text p.1) (option_append (C.text p.2)
        (option_append (D.text p.3) (option_append (E.text p.4) (F.text p.5))))) };

    fn is_showable(self) -> bool {
        (self.0, (self.1, self.2, self.3, self.4, self.5)).is_showable()
    }

    fn write_pieces<O: fmt::Write>(self, out: &mut O) -> fmt::Result {
        (self.0, (self.1, self.2, self.3, self.4, self.5)).write_pieces(out)
    }
}

impl<A: Part, B: Part, C: Part, D: Part, E: Part, F: Part, G: Part> Part for (A, B, C, D, E, F, G) {
    ghost is_text = { λ p. A.is_text p.0 then B.is_text p.1 then C.is_text p.2 then D.is_text p.3
        then E.is_text p.4 then F.is_text p.5 then G.is_text p.6 };

    ghost is_valid = { λ p. A.is_valid p.0 × (B.is_valid p.1 × (C.is_valid p.2 × (D.is_valid p.3
        × (E.is_valid p.4 × (F.is_valid p.5 × G.is_valid p.6))))) };

    ghost room = { λ p. A.room p.0 + (B.room p.1 + (C.room p.2 + (D.room p.3 + (E.room p.4
        + (F.room p.5 + G.room p.6))))) };

    ghost is_utf8 = { λ p. A.is_utf8 p.0 × (B.is_utf8 p.1 × (C.is_utf8 p.2 × (D.is_utf8 p.3
        × (E.is_utf8 p.4 × (F.is_utf8 p.5 × G.is_utf8 p.6))))) };

    fn room(self) -> usize {
        (self.0, (self.1, self.2, self.3, self.4, self.5, self.6)).room()
    }

    fn text_len(self) -> Option<usize> {
        (self.0, (self.1, self.2, self.3, self.4, self.5, self.6)).text_len()
    }

    fn write_to(self, buffer: &mut [u8]) -> usize {
        (self.0, (self.1, self.2, self.3, self.4, self.5, self.6)).write_to(buffer)
    }

    fn is_known_valid_and_utf8(self, sealed: Sealed) -> bool {
        (self.0, (self.1, self.2, self.3, self.4, self.5, self.6)).is_known_valid_and_utf8(sealed)
    }

    fn room_bound(self, sealed: Sealed) -> usize {
        (self.0, (self.1, self.2, self.3, self.4, self.5, self.6)).room_bound(sealed)
    }
}

impl<A: Show, B: Show, C: Show, D: Show, E: Show, F: Show, G: Show> Show for (A, B, C, D, E, F, G) {
    ghost text = { λ p. option_append (A.text p.0) (option_append (B.text p.1) (option_append (C.text p.2)
        (option_append (D.text p.3) (option_append (E.text p.4) (option_append (F.text p.5) (G.text p.6)))))) };

    fn is_showable(self) -> bool {
        (self.0, (self.1, self.2, self.3, self.4, self.5, self.6)).is_showable()
    }

    fn write_pieces<O: fmt::Write>(self, out: &mut O) -> fmt::Result {
        (self.0, (self.1, self.2, self.3, self.4, self.5, self.6)).write_pieces(out)
    }
}

impl<A: Part, B: Part, C: Part, D: Part, E: Part, F: Part, G: Part, H: Part> Part
    for (A, B, C, D, E, F, G, H) {
    ghost is_text = { λ p. A.is_text p.0 then B.is_text p.1 then C.is_text p.2 then D.is_text p.3
        then E.is_text p.4 then F.is_text p.5 then G.is_text p.6 then H.is_text p.7 };

    ghost is_valid = { λ p. A.is_valid p.0 × (B.is_valid p.1 × (C.is_valid p.2 × (D.is_valid p.3
        × (E.is_valid p.4 × (F.is_valid p.5 × (G.is_valid p.6 × H.is_valid p.7)))))) };

    ghost room = { λ p. A.room p.0 + (B.room p.1 + (C.room p.2 + (D.room p.3 + (E.room p.4
        + (F.room p.5 + (G.room p.6 + H.room p.7)))))) };

    ghost is_utf8 = { λ p. A.is_utf8 p.0 × (B.is_utf8 p.1 × (C.is_utf8 p.2 × (D.is_utf8 p.3
        × (E.is_utf8 p.4 × (F.is_utf8 p.5 × (G.is_utf8 p.6 × H.is_utf8 p.7)))))) };

    fn room(self) -> usize {
        let (a, b, c, d, e, f, g, h) = self;
        (a, (b, c, d, e, f, g, h)).room()
    }

    fn text_len(self) -> Option<usize> {
        let (a, b, c, d, e, f, g, h) = self;
        (a, (b, c, d, e, f, g, h)).text_len()
    }

    fn write_to(self, buffer: &mut [u8]) -> usize {
        let (a, b, c, d, e, f, g, h) = self;
        (a, (b, c, d, e, f, g, h)).write_to(buffer)
    }

    fn is_known_valid_and_utf8(self, sealed: Sealed) -> bool {
        let (a, b, c, d, e, f, g, h) = self;
        (a, (b, c, d, e, f, g, h)).is_known_valid_and_utf8(sealed)
    }

    fn room_bound(self, sealed: Sealed) -> usize {
        let (a, b, c, d, e, f, g, h) = self;
        (a, (b, c, d, e, f, g, h)).room_bound(sealed)
    }
}

impl<A: Show, B: Show, C: Show, D: Show, E: Show, F: Show, G: Show, H: Show> Show
    for (A, B, C, D, E, F, G, H) {
    ghost text = { λ p. option_append (A.text p.0) (option_append (B.text p.1) (option_append (C.text p.2)
        (option_append (D.text p.3) (option_append (E.text p.4) (option_append (F.text p.5)
        (option_append (G.text p.6) (H.text p.7))))))) };

    fn is_showable(self) -> bool {
        let (a, b, c, d, e, f, g, h) = self;
        (a, (b, c, d, e, f, g, h)).is_showable()
    }

    fn write_pieces<O: fmt::Write>(self, out: &mut O) -> fmt::Result {
        let (a, b, c, d, e, f, g, h) = self;
        (a, (b, c, d, e, f, g, h)).write_pieces(out)
    }
}

impl<A: Part, B: Part, C: Part, D: Part, E: Part, F: Part, G: Part, H: Part, I: Part> Part
    for (A, B, C, D, E, F, G, H, I) {
    ghost is_text = { λ p. A.is_text p.0 then B.is_text p.1 then C.is_text p.2 then D.is_text p.3
        then E.is_text p.4 then F.is_text p.5 then G.is_text p.6 then H.is_text p.7
        then I.is_text p.8 };

    ghost is_valid = { λ p. A.is_valid p.0 × (B.is_valid p.1 × (C.is_valid p.2 × (D.is_valid p.3
        × (E.is_valid p.4 × (F.is_valid p.5 × (G.is_valid p.6 × (H.is_valid p.7
        × I.is_valid p.8))))))) };

    ghost room = { λ p. A.room p.0 + (B.room p.1 + (C.room p.2 + (D.room p.3 + (E.room p.4
        + (F.room p.5 + (G.room p.6 + (H.room p.7 + I.room p.8))))))) };

    ghost is_utf8 = { λ p. A.is_utf8 p.0 × (B.is_utf8 p.1 × (C.is_utf8 p.2 × (D.is_utf8 p.3
        × (E.is_utf8 p.4 × (F.is_utf8 p.5 × (G.is_utf8 p.6 × (H.is_utf8 p.7
        × I.is_utf8 p.8))))))) };

    fn room(self) -> usize {
        let (a, b, c, d, e, f, g, h, i) = self;
        (a, (b, c, d, e, f, g, h, i)).room()
    }

    fn text_len(self) -> Option<usize> {
        let (a, b, c, d, e, f, g, h, i) = self;
        (a, (b, c, d, e, f, g, h, i)).text_len()
    }

    fn write_to(self, buffer: &mut [u8]) -> usize {
        let (a, b, c, d, e, f, g, h, i) = self;
        (a, (b, c, d, e, f, g, h, i)).write_to(buffer)
    }

    fn is_known_valid_and_utf8(self, sealed: Sealed) -> bool {
        let (a, b, c, d, e, f, g, h, i) = self;
        (a, (b, c, d, e, f, g, h, i)).is_known_valid_and_utf8(sealed)
    }

    fn room_bound(self, sealed: Sealed) -> usize {
        let (a, b, c, d, e, f, g, h, i) = self;
        (a, (b, c, d, e, f, g, h, i)).room_bound(sealed)
    }
}

impl<A: Show, B: Show, C: Show, D: Show, E: Show, F: Show, G: Show, H: Show, I: Show> Show
    for (A, B, C, D, E, F, G, H, I) {
    ghost text = { λ p. option_append (A.text p.0) (option_append (B.text p.1) (option_append (C.text p.2)
        (option_append (D.text p.3) (option_append (E.text p.4) (option_append (F.text p.5)
        (option_append (G.text p.6) (option_append (H.text p.7) (I.text p.8)))))))) };

    fn is_showable(self) -> bool {
        let (a, b, c, d, e, f, g, h, i) = self;
        (a, (b, c, d, e, f, g, h, i)).is_showable()
    }

    fn write_pieces<O: fmt::Write>(self, out: &mut O) -> fmt::Result {
        let (a, b, c, d, e, f, g, h, i) = self;
        (a, (b, c, d, e, f, g, h, i)).write_pieces(out)
    }
}

impl<A: Part, B: Part, C: Part, D: Part, E: Part, F: Part, G: Part, H: Part, I: Part, J: Part> Part
    for (A, B, C, D, E, F, G, H, I, J) {
    ghost is_text = { λ p. A.is_text p.0 then B.is_text p.1 then C.is_text p.2 then D.is_text p.3
        then E.is_text p.4 then F.is_text p.5 then G.is_text p.6 then H.is_text p.7
        then I.is_text p.8 then J.is_text p.9 };

    ghost is_valid = { λ p. A.is_valid p.0 × (B.is_valid p.1 × (C.is_valid p.2 × (D.is_valid p.3
        × (E.is_valid p.4 × (F.is_valid p.5 × (G.is_valid p.6 × (H.is_valid p.7 × (I.is_valid p.8
        × J.is_valid p.9)))))))) };

    ghost room = { λ p. A.room p.0 + (B.room p.1 + (C.room p.2 + (D.room p.3 + (E.room p.4
        + (F.room p.5 + (G.room p.6 + (H.room p.7 + (I.room p.8 + J.room p.9)))))))) };

    ghost is_utf8 = { λ p. A.is_utf8 p.0 × (B.is_utf8 p.1 × (C.is_utf8 p.2 × (D.is_utf8 p.3
        × (E.is_utf8 p.4 × (F.is_utf8 p.5 × (G.is_utf8 p.6 × (H.is_utf8 p.7 × (I.is_utf8 p.8
        × J.is_utf8 p.9)))))))) };

    fn room(self) -> usize {
        let (a, b, c, d, e, f, g, h, i, j) = self;
        (a, (b, c, d, e, f, g, h, i, j)).room()
    }

    fn text_len(self) -> Option<usize> {
        let (a, b, c, d, e, f, g, h, i, j) = self;
        (a, (b, c, d, e, f, g, h, i, j)).text_len()
    }

    fn write_to(self, buffer: &mut [u8]) -> usize {
        let (a, b, c, d, e, f, g, h, i, j) = self;
        (a, (b, c, d, e, f, g, h, i, j)).write_to(buffer)
    }

    fn is_known_valid_and_utf8(self, sealed: Sealed) -> bool {
        let (a, b, c, d, e, f, g, h, i, j) = self;
        (a, (b, c, d, e, f, g, h, i, j)).is_known_valid_and_utf8(sealed)
    }

    fn room_bound(self, sealed: Sealed) -> usize {
        let (a, b, c, d, e, f, g, h, i, j) = self;
        (a, (b, c, d, e, f, g, h, i, j)).room_bound(sealed)
    }
}

impl<A: Show, B: Show, C: Show, D: Show, E: Show, F: Show, G: Show, H: Show, I: Show, J: Show> Show
    for (A, B, C, D, E, F, G, H, I, J) {
    ghost text = { λ p. option_append (A.text p.0) (option_append (B.text p.1) (option_append (C.text p.2)
        (option_append (D.text p.3) (option_append (E.text p.4) (option_append (F.text p.5)
        (option_append (G.text p.6) (option_append (H.text p.7) (option_append (I.text p.8) (J.text p.9))))))))) };

    fn is_showable(self) -> bool {
        let (a, b, c, d, e, f, g, h, i, j) = self;
        (a, (b, c, d, e, f, g, h, i, j)).is_showable()
    }

    fn write_pieces<O: fmt::Write>(self, out: &mut O) -> fmt::Result {
        let (a, b, c, d, e, f, g, h, i, j) = self;
        (a, (b, c, d, e, f, g, h, i, j)).write_pieces(out)
    }
}

impl<
    A: Part,
    B: Part,
    C: Part,
    D: Part,
    E: Part,
    F: Part,
    G: Part,
    H: Part,
    I: Part,
    J: Part,
    K: Part,
> Part for (A, B, C, D, E, F, G, H, I, J, K) {
    ghost is_text = { λ p. A.is_text p.0 then B.is_text p.1 then C.is_text p.2 then D.is_text p.3
        then E.is_text p.4 then F.is_text p.5 then G.is_text p.6 then H.is_text p.7
        then I.is_text p.8 then J.is_text p.9 then K.is_text p.10 };

    ghost is_valid = { λ p. A.is_valid p.0 × (B.is_valid p.1 × (C.is_valid p.2 × (D.is_valid p.3
        × (E.is_valid p.4 × (F.is_valid p.5 × (G.is_valid p.6 × (H.is_valid p.7 × (I.is_valid p.8
        × (J.is_valid p.9 × K.is_valid p.10))))))))) };

    ghost room = { λ p. A.room p.0 + (B.room p.1 + (C.room p.2 + (D.room p.3 + (E.room p.4
        + (F.room p.5 + (G.room p.6 + (H.room p.7 + (I.room p.8 + (J.room p.9
        + K.room p.10))))))))) };

    ghost is_utf8 = { λ p. A.is_utf8 p.0 × (B.is_utf8 p.1 × (C.is_utf8 p.2 × (D.is_utf8 p.3
        × (E.is_utf8 p.4 × (F.is_utf8 p.5 × (G.is_utf8 p.6 × (H.is_utf8 p.7 × (I.is_utf8 p.8
        × (J.is_utf8 p.9 × K.is_utf8 p.10))))))))) };

    fn room(self) -> usize {
        let (a, b, c, d, e, f, g, h, i, j, k) = self;
        (a, (b, c, d, e, f, g, h, i, j, k)).room()
    }

    fn text_len(self) -> Option<usize> {
        let (a, b, c, d, e, f, g, h, i, j, k) = self;
        (a, (b, c, d, e, f, g, h, i, j, k)).text_len()
    }

    fn write_to(self, buffer: &mut [u8]) -> usize {
        let (a, b, c, d, e, f, g, h, i, j, k) = self;
        (a, (b, c, d, e, f, g, h, i, j, k)).write_to(buffer)
    }

    fn is_known_valid_and_utf8(self, sealed: Sealed) -> bool {
        let (a, b, c, d, e, f, g, h, i, j, k) = self;
        (a, (b, c, d, e, f, g, h, i, j, k)).is_known_valid_and_utf8(sealed)
    }

    fn room_bound(self, sealed: Sealed) -> usize {
        let (a, b, c, d, e, f, g, h, i, j, k) = self;
        (a, (b, c, d, e, f, g, h, i, j, k)).room_bound(sealed)
    }
}

impl<
    A: Show,
    B: Show,
    C: Show,
    D: Show,
    E: Show,
    F: Show,
    G: Show,
    H: Show,
    I: Show,
    J: Show,
    K: Show,
> Show for (A, B, C, D, E, F, G, H, I, J, K) {
    ghost text = { λ p. option_append (A.text p.0) (option_append (B.text p.1) (option_append (C.text p.2)
        (option_append (D.text p.3) (option_append (E.text p.4) (option_append (F.text p.5)
        (option_append (G.text p.6) (option_append (H.text p.7) (option_append (I.text p.8)
        (option_append (J.text p.9) (K.text p.10)))))))))) };

    fn is_showable(self) -> bool {
        let (a, b, c, d, e, f, g, h, i, j, k) = self;
        (a, (b, c, d, e, f, g, h, i, j, k)).is_showable()
    }

    fn write_pieces<O: fmt::Write>(self, out: &mut O) -> fmt::Result {
        let (a, b, c, d, e, f, g, h, i, j, k) = self;
        (a, (b, c, d, e, f, g, h, i, j, k)).write_pieces(out)
    }
}

impl<
    A: Part,
    B: Part,
    C: Part,
    D: Part,
    E: Part,
    F: Part,
    G: Part,
    H: Part,
    I: Part,
    J: Part,
    K: Part,
    L: Part,
> Part for (A, B, C, D, E, F, G, H, I, J, K, L) {
    ghost is_text = { λ p. A.is_text p.0 then B.is_text p.1 then C.is_text p.2 then D.is_text p.3
        then E.is_text p.4 then F.is_text p.5 then G.is_text p.6 then H.is_text p.7
        then I.is_text p.8 then J.is_text p.9 then K.is_text p.10 then L.is_text p.11 };

    ghost is_valid = { λ p. A.is_valid p.0 × (B.is_valid p.1 × (C.is_valid p.2 × (D.is_valid p.3
        × (E.is_valid p.4 × (F.is_valid p.5 × (G.is_valid p.6 × (H.is_valid p.7 × (I.is_valid p.8
        × (J.is_valid p.9 × (K.is_valid p.10 × L.is_valid p.11)))))))))) };

    ghost room = { λ p. A.room p.0 + (B.room p.1 + (C.room p.2 + (D.room p.3 + (E.room p.4
        + (F.room p.5 + (G.room p.6 + (H.room p.7 + (I.room p.8 + (J.room p.9 + (K.room p.10
        + L.room p.11)))))))))) };

    ghost is_utf8 = { λ p. A.is_utf8 p.0 × (B.is_utf8 p.1 × (C.is_utf8 p.2 × (D.is_utf8 p.3
        × (E.is_utf8 p.4 × (F.is_utf8 p.5 × (G.is_utf8 p.6 × (H.is_utf8 p.7 × (I.is_utf8 p.8
        × (J.is_utf8 p.9 × (K.is_utf8 p.10 × L.is_utf8 p.11)))))))))) };

    fn room(self) -> usize {
        let (a, b, c, d, e, f, g, h, i, j, k, l) = self;
        (a, (b, c, d, e, f, g, h, i, j, k, l)).room()
    }

    fn text_len(self) -> Option<usize> {
        let (a, b, c, d, e, f, g, h, i, j, k, l) = self;
        (a, (b, c, d, e, f, g, h, i, j, k, l)).text_len()
    }

    fn write_to(self, buffer: &mut [u8]) -> usize {
        let (a, b, c, d, e, f, g, h, i, j, k, l) = self;
        (a, (b, c, d, e, f, g, h, i, j, k, l)).write_to(buffer)
    }

    fn is_known_valid_and_utf8(self, sealed: Sealed) -> bool {
        let (a, b, c, d, e, f, g, h, i, j, k, l) = self;
        (a, (b, c, d, e, f, g, h, i, j, k, l)).is_known_valid_and_utf8(sealed)
    }

    fn room_bound(self, sealed: Sealed) -> usize {
        let (a, b, c, d, e, f, g, h, i, j, k, l) = self;
        (a, (b, c, d, e, f, g, h, i, j, k, l)).room_bound(sealed)
    }
}

impl<
    A: Show,
    B: Show,
    C: Show,
    D: Show,
    E: Show,
    F: Show,
    G: Show,
    H: Show,
    I: Show,
    J: Show,
    K: Show,
    L: Show,
> Show for (A, B, C, D, E, F, G, H, I, J, K, L) {
    ghost text = { λ p. option_append (A.text p.0) (option_append (B.text p.1) (option_append (C.text p.2)
        (option_append (D.text p.3) (option_append (E.text p.4) (option_append (F.text p.5)
        (option_append (G.text p.6) (option_append (H.text p.7) (option_append (I.text p.8)
        (option_append (J.text p.9) (option_append (K.text p.10) (L.text p.11))))))))))) };

    fn is_showable(self) -> bool {
        let (a, b, c, d, e, f, g, h, i, j, k, l) = self;
        (a, (b, c, d, e, f, g, h, i, j, k, l)).is_showable()
    }

    fn write_pieces<O: fmt::Write>(self, out: &mut O) -> fmt::Result {
        let (a, b, c, d, e, f, g, h, i, j, k, l) = self;
        (a, (b, c, d, e, f, g, h, i, j, k, l)).write_pieces(out)
    }
}
