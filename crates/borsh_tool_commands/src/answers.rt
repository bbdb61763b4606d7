// What is asked of a container, and the answer.
ghost use Rattle.std.specs.Prelude.{◌≡◌, IfOk, flat_map};
ghost use Rattle.borsh_walks.specs.Answers.{words_of};
ghost use Rattle.borsh_tool_commands.specs.Answers.{line_of, words_line as line_of_words};
ghost use Rattle.borsh_tool_commands.specs.Plain.{escaped};
ghost use Rattle.borsh_tool_commands.specs.Printed.{printed};
ghost use Rattle.borsh_tool_commands.specs.Questions.{AnswersQuestion};

use super::definitions::schema_text;
use super::plain_text::PlainText;
use super::values::Schema;
use borsh_walks::{Words, rules_in_words, size_in_words};
use std::alloc::{AllocError, Global};

/// What may be asked of a container.
#[derive(Clone, Copy, Debug, PartialEq, Eq)]
pub enum Question {
    /// Its definitions.
    Schema,
    /// Whether it keeps the rules.
    Check,
    /// The greatest size of its root in bytes.
    Size,
}

/// The text of an answer, and whether the answer is yes.
#[derive(Debug, Drop)]
pub struct TextAnswer {
    pub is_yes: bool,
    pub text: PlainText,
}

/// The answer to a question about a container: its definitions; or `valid`, or `invalid`, a rule and a name that breaks it; or the
/// greatest size of the root in decimal, or why there is none.
pub fn answer_to(
    alloc: Global,
    question: Question,
    schema: &Schema,
) -> Result<TextAnswer, AllocError>
    ensures { IfOk result (λ a. AnswersQuestion question schema.now a.is_yes (printed a.text)) }
{
    let Schema { root, definitions } = schema;
    match question {
        Question::Schema => Ok(TextAnswer {
            is_yes: true,
            text: schema_text(alloc, schema)?,
        }),
        Question::Check => {
            let (is_yes, words) = rules_in_words(alloc, root, definitions)?;
            let text = words_line(alloc, &words)?;
            Ok(TextAnswer { is_yes, text })
        }
        Question::Size => {
            let (size, words) = size_in_words(alloc, root, definitions)?;
            let text = words_line(alloc, &words)?;
            Ok(TextAnswer {
                is_yes: size.is_some(),
                text,
            })
        }
    }
}

/// Words, and a name behind them, if there is one, as a line.
fn words_line(alloc: Global, words: &Words) -> Result<PlainText, AllocError>
    ensures { let w = words_of words.now in
        IfOk result (λ t. printed t ≡ line_of_words (flat_map escaped w.0, w.1)) }
{
    let mut out = PlainText::new(alloc);
    out.push(words.text.as_str())?;
    if let Some(name) = &words.name {
        out.push(" ")?;
        out.push_name(name.as_str())?;
    }
    out.end_line()?;
    Ok(out)
}

/// A text as a line.
pub(crate) fn line(alloc: Global, text: &str) -> Result<PlainText, AllocError>
    ensures { IfOk result (λ t. printed t ≡ line_of (flat_map escaped text.now)) }
{
    let mut out = PlainText::new(alloc);
    out.push(text)?;
    out.end_line()?;
    Ok(out)
}
