// The two dialects of content steering.
ghost use Rattle.std.specs.Prelude.{◌≡◌, Some};
ghost use Rattle.pathways.specs.Dialects.{dialect_name};

use std::fmt;

#[derive(Clone, Copy, Debug, PartialEq, Eq)]
pub enum Dialect {
    Hls,
    Dash,
}

impl Dialect {
    pub fn name(self) -> &'static str
        ensures { result.now ≡ dialect_name self }
    {
        match self {
            Dialect::Hls => "hls",
            Dialect::Dash => "dash",
        }
    }
}

// Its name.
impl fmt::Display for Dialect {
    ghost output = { λ d. Some (dialect_name d) };

    fn fmt<W: fmt::Write>(&self, f: &mut fmt::Formatter<W>) -> fmt::Result {
        f.write_str(self.name())
    }
}
