// Counts of comparisons.

// How many were compared, how many of these were planned, judged yes, have a window, have a next plan, break a rule
// that need not hold or meet a refusal, and how many differ. The highest count stays as it is.
#[derive(Clone, Copy, Default)]
pub struct Tally {
    pub compared: u32,
    pub met: u32,
    pub differ: u32,
}

impl Tally {
    pub fn add(&mut self, met: bool, agrees: bool) {
        self.compared = self.compared.saturating_add(1);
        self.met = self.met.saturating_add(u32::from(met));
        self.differ = self.differ.saturating_add(u32::from(!agrees));
    }
}
