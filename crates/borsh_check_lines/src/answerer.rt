// Lines are answered and counted. Left open of each call: none.
ghost use Rattle.std.specs.Prelude.{◌≡◌, OnOk, IfErr};
ghost use Rattle.borsh_check_lines.specs.Answers.{Answers};
ghost use Rattle.borsh_walks.specs.Counts.{add_saturating};
ghost use Rattle.borsh_check_lines.specs.Counts.{line_count};
ghost use Rattle.borsh_check_lines.specs.Lines.{Appends};

use super::answers::answer;
use std::alloc::{AllocError, Global};

/// Answers lines, and counts the lines that it has answered. A count at its greatest value stays there.
#[derive(Debug, Drop)]
pub struct Answerer {
    count: u64,
}

impl Answerer {
    /// An answerer that has answered no line.
    ///
    /// ```
    /// let mut answerer = Answerer::new();
    /// run_counted(alloc, &mut reader, &mut writer, &mut answerer)?;
    /// println!(rt; "{} lines", answerer.count())?;
    /// ```
    pub fn new() -> Answerer
        ensures { line_count result ≡ 0 }
    {
        Answerer { count: 0 }
    }

    /// How many lines it has answered.
    pub fn count(&self) -> u64
        ensures { result ≡ line_count self.now }
    {
        self.count
    }

    /// Appends the answer to `line` and a line feed to `out`, and counts the line.
    ///
    /// If an allocation fails, nothing was appended and the line isn't counted. Left open: as of the function [`answer`].
    pub fn answer(
        &mut self,
        alloc: Global,
        line: &[u8],
        out: &mut Vec<u8>,
    ) -> Result<(), AllocError>
        ensures appends { OnOk result (Appends Answers line.now out.old.items out.new.items) }
        ensures counts { OnOk result (line_count self.new ≡ add_saturating (line_count self.old) 1) }
        ensures kept { IfErr result (λ _. out.new.items ≡ out.old.items) }
        ensures uncounted { IfErr result (λ _. line_count self.new ≡ line_count self.old) }
    {
        let mut reply = answer(alloc, line)?;
        reply.push(b'\n')?;
        out.extend_from_slice(reply.as_slice())?;
        self.count = self.count.saturating_add(1);
        Ok(())
    }
}
