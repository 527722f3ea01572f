//! How faults, layers and refusals are printed: a refusal by number, word, layer and place.
ghost use Rattle.std.specs.Prelude.{Some};
ghost use Rattle.refusal.specs.Faults.{number};
ghost use Rattle.refusal.specs.Words.{layer_word, printed, «word_at»};

use crate::fault::{Fault, Layer, Refusal};
use crate::words::word;
use std::fmt;

impl fmt::Display for Fault {
    ghost output = { λ f. Some (word_at (number f)) };

    fn fmt<W: fmt::Write>(&self, f: &mut fmt::Formatter<W>) -> fmt::Result {
        f.write_str(word(self.number()))
    }
}

impl fmt::Display for Layer {
    ghost output = { λ l. Some (layer_word l) };

    fn fmt<W: fmt::Write>(&self, f: &mut fmt::Formatter<W>) -> fmt::Result {
        let name = match self {
            Layer::Tables => "tables",
            Layer::Area => "area",
            Layer::Bytes => "bytes",
        };
        write!(f, "{name}")
    }
}

impl fmt::Display for Refusal {
    ghost output = { λ e. Some (printed e) };

    fn fmt<W: fmt::Write>(&self, f: &mut fmt::Formatter<W>) -> fmt::Result {
        let fault = self.fault;
        let number = fault.number();
        let layer = fault.layer();
        let place = self.place;
        write!(f, "{number} {fault}, {layer}, place {place}")
    }
}
