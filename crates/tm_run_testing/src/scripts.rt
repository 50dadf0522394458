//! The lines that most scripts of tests begin with.

/// The lines that make a new volume.
pub const FORMAT_VOLUME: &str = "\
at 2009-03-02-090000\n\
newvolume HD 6ba7b810-9dad-11d1-80b4-00c04fd430c8 1000\n";

/// The lines that make a new volume and a new store.
pub const FORMAT_BOTH: &str = "\
at 2009-03-02-090000\n\
newvolume HD 6ba7b810-9dad-11d1-80b4-00c04fd430c8 1000\n\
newstore Mac\n";

/// What [`FORMAT_BOTH`] says.
pub const FORMAT_BOTH_SAYS: &str = "ok\nok\nok\n";
