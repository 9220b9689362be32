// Fractional rosters: what rosters are where steps may be taken in parts (the linear relaxation).
ghost use Rattle.std.specs.Prelude.{◌<◌, length, IfOk, IfSome, OnOk};
ghost use Rattle.roster_finder.specs.ByStep.{IsByStep};
ghost use Rattle.roster_finder.specs.Mixtures.{IsMixtureOf};

use crate::mixture::Mixture;
use crate::random::Random;
use crate::setting::Setting;
use crate::table::Table;
use std::alloc::AllocError;

/// Shares are given in parts of a use; this many parts are one use.
pub const ONE_USE: i64 = 4_096;

/// A fractional roster as a flow: for each weekday and step how often it is taken.
#[derive(Drop)]
pub(crate) struct Shares {
    /// Whether they are led over all cuts. Where none are, there is hardly a roster.
    pub hang_together: bool,
    /// By weekday and step, in parts of a use.
    pub uses: Table<i64>,
}

impl Shares {
    /// Those of a mixture of words that meets the demand; None where no mixture does. They hang together where one does
    /// that is led over all cuts, which are looked for `cutting_turns` times at most. They are blurred by random numbers
    /// below `noise`.
    pub fn of(
        setting: Setting<'_>,
        random: &mut Random,
        noise: u32,
        cutting_turns: usize,
    ) -> Result<Option<Shares>, AllocError>
        requires nodes { 0 < setting.layer.now.nodes }
        requires steps { 0 < length setting.layer.now.steps.items }
        ensures { IfOk result (λ found. IfSome found (λ s. IsByStep setting.entry s.uses)) }
    {
        let mut mixture = Mixture::new(setting, noise)?;
        if !mixture.approach(setting, random)? {
            return Ok(None);
        }
        let mut shares = Shares {
            hang_together: true,
            uses: mixture.uses(setting, ONE_USE)?,
        };
        shares.lead_over_cuts(setting, random, &mut mixture, cutting_turns)?;
        Ok(Some(shares))
    }

    // Leads a mixture and its uses over cuts. Where no mixture is led over all of them, the uses stay those of the last
    // one that was led over those before.
    fn lead_over_cuts(
        &mut self,
        setting: Setting<'_>,
        random: &mut Random,
        mixture: &mut Mixture,
        cutting_turns: usize,
    ) -> Result<(), AllocError>
        requires nodes { 0 < setting.layer.now.nodes }
        requires steps { 0 < length setting.layer.now.steps.items }
        requires mixture { IsMixtureOf setting mixture.old }
        requires uses { IsByStep setting self.old.uses }
        ensures { OnOk result (IsByStep setting.entry self.new.uses) }
    {
        for _ in 0..cutting_turns {
            if !mixture.cut(setting, &self.uses)? {
                break;
            }
            if !mixture.approach(setting, random)? {
                self.hang_together = false;
                break;
            }
            let led = mixture.uses(setting, ONE_USE)?;
            self.uses = led;
        }
        Ok(())
    }
}
