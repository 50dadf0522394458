//! A volume and a store that fit: a stamp tells an item, so that a backup may compare stamps in
//! place of bytes (`docs/DEFINITIONS.md`, "Fit").
//!
//! Each function is empty; its contract is a law.
#![tactic(auto)]

ghost use Rattle.tm_fit.specs.Laws.{ChangeFits, BackupFits, NewVolumeFits, NewVolumeAloneFits, NewStoreFits, LaterGenerationFits};

/// A change that nothing refuses keeps the fit.
pub fn changes_fit()
    ensures { ChangeFits }
{}

/// A backup keeps the fit.
pub fn backups_fit()
    ensures { BackupFits }
{}

/// A new volume fits, alone or where no snapshot has its id.
pub fn new_volumes_fit()
    ensures store { NewVolumeFits }
    ensures alone { NewVolumeAloneFits }
{}

/// A new store fits.
pub fn new_stores_fit()
    ensures { NewStoreFits }
{}

/// A later generation keeps the fit.
pub fn later_generations_fit()
    ensures { LaterGenerationFits }
{}
