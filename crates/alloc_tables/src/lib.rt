//! Commands that show what files say: `sets` the stated sets of a problem, `table` what is eaten in
//! it, and `sides` which sides keep the sets of a family apart.
//!
//! Each is a step: it reads two files, decides, puts its text together and writes it. No step knows
//! the words that ask for it, nor any other command.
//!
//! ```text
//! let prefs = b"agent\nx,a\n";
//! let quotas = b"object,a,,1\n";
//! let mut out = SureSink::new(alloc);
//! sets::step(alloc, prefs, quotas, &mut out)?;
//! assert_eq!(rt; out.bytes(), b"set,1,2,0,1,1,0\nend,1\n");
//!
//! let mut out = SureSink::new(alloc);
//! table::step(alloc, prefs, quotas, &mut out)?;
//!
//! let mut out = SureSink::new(alloc);
//! sides::step(alloc, b"agent,a\nx,0\n", b"object,a\nset,A,1\n", &mut out)?;
//! assert_eq!(rt; out.bytes(), b"side,1,1\nside,2,1\nend,2\n");
//! ```
#![tactic(auto)]

pub mod sets;
pub mod sides;
pub mod table;
