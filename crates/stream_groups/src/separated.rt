//! A source over another one, of whose bytes the comma and a separator are exchanged as they are read. So whatever looks for
//! a comma between two fields finds it there, and nothing else has to know of the separator.

ghost use Rattle.std.specs.Prelude.{◌≡◌, map, option_map};
ghost use Rattle.csv_rows.specs.Readings.{exchanged};
ghost use Rattle.stream_groups.specs.Sources.{bare_faults, bare_left, exchanged_left};

use csv_rows::exchange;
use par_io::{Failed, Source};

/// The bytes of another source. Once the words have named a separator, the comma and it are exchanged in what is read; with
/// the comma, as at first, nothing is done to them.
#[derive(Drop)]
pub struct Separated<S> {
    source: S,
    separator: u8,
}

impl<S: Source> Separated<S> {
    /// The bytes of this source.
    pub fn new(source: S) -> Separated<S>
        ensures left { bare_left S.left result ≡ S.left source }
        ensures faults { bare_faults S.faults result ≡ S.faults source }
    {
        Separated {
            source,
            separator: b',',
        }
    }

    /// From here on the comma and this byte are exchanged.
    pub fn separate(&mut self, separator: u8)
        ensures exchanged { exchanged_left S.left self.new ≡ option_map (map (exchanged separator)) (bare_left S.left self.old) }
        ensures left { bare_left S.left self.new ≡ bare_left S.left self.old }
        ensures faults { bare_faults S.faults self.new ≡ bare_faults S.faults self.old }
    {
        self.separator = separator;
    }
}

impl<S: Source> Source for Separated<S> {
    ghost use Rattle.stream_groups.specs.Sources.{bare_faults, exchanged_left};

    ghost left = { exchanged_left S.left };

    ghost faults = { bare_faults S.faults };

    /// One read of the source under it.
    fn read(&mut self, buf: &mut [u8]) -> Result<usize, Failed> {
        let count = self.source.read(buf)?;
        if self.separator != b',' {
            exchange(&mut buf[..count], self.separator);
        }
        Ok(count)
    }
}
