// Words with numbers behind them, as they are written with spaces between them.
ghost use Rattle.std.specs.Prelude.{Some};
ghost use Rattle.run_report.specs.Words.{◌␣◌, one_text, two_text};

use std::fmt;

/// A word and a number, to be written.
#[derive(Clone, Copy)]
pub struct One(pub &'static str, pub u128);

impl fmt::Display for One {
    ghost output = { λ said. Some (one_text said.0.now said.1) };

    fn fmt<W: fmt::Write>(&self, f: &mut fmt::Formatter<W>) -> fmt::Result {
        let One(word, number) = *self;
        write!(f, "{word} {number}")
    }
}

/// A word and two numbers, to be written.
#[derive(Clone, Copy)]
pub struct Two(pub &'static str, pub u128, pub u128);

impl fmt::Display for Two {
    ghost output = { λ said. Some (two_text said.0.now said.1 said.2) };

    fn fmt<W: fmt::Write>(&self, f: &mut fmt::Formatter<W>) -> fmt::Result {
        let Two(word, first, second) = *self;
        write!(f, "{word} {first} {second}")
    }
}

/// Three words with a number each, to be written.
#[derive(Clone, Copy)]
pub struct Three(pub One, pub One, pub One);

impl fmt::Display for Three {
    ghost output = { λ said. Some (one_text said.0.0.now said.0.1 ␣ one_text said.1.0.now said.1.1 ␣ one_text said.2.0.now said.2.1) };

    fn fmt<W: fmt::Write>(&self, f: &mut fmt::Formatter<W>) -> fmt::Result {
        let Three(first, second, third) = *self;
        write!(f, "{first} {second} {third}")
    }
}
