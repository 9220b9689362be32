// What holds of all words, and where their days are.
ghost use Rattle.std.specs.Prelude.{◌≡◌, ◌+◌, ◌%◌, ◌<◌, ◌≤◌, length};
ghost use Rattle.rwsp_terms.specs.declared.limits.TheConstants.{LONGEST_WORD};
ghost use Rattle.rwsp_terms.specs.Instance.{cells};
ghost use Rattle.clean_words.specs.Automata.{begin_at};
ghost use Rattle.clean_words.specs.Trellis.{AreFacts};

use crate::CleanWords;

impl CleanWords<'_> {
    // What holds of the automaton and of the domains. Does nothing when run.
    pub fn prove_facts(&self)
        ensures { AreFacts self.now }
    {
        self.automaton.prove_facts();
        self.domains.prove_facts();
    }

    // The state where the words begin.
    pub fn start(&self) -> usize
        ensures value { result ≡ begin_at self.now.automaton.now self.now.position }
        ensures inside { result < length self.now.automaton.now.moves }
    {
        self.automaton.start(self.position)
    }

    // The position of a day.
    pub fn place(&self, day: u32) -> u32
        requires { day < self.now.days }
        ensures value { result ≡ (self.now.position + day) % cells self.now.automaton.now.problem }
        ensures inside { result < length self.now.domains.now.sets }
    {
        self.prove_facts();
        (self.position + day) % self.domains.cells()
    }
}
