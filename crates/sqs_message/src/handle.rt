//! Receipt handles in calls.
use crate::ids::Receipt;
use crate::text::Text;
use std::marker::Model;
use std::str;

/// The source of a receipt handle.
#[derive(Drop)]
pub enum HandleForm {
    /// A receipt that a receive made.
    Made(Receipt),
    /// Any text.
    Text(Text),
}

/// A receipt handle in a call: one that a receive made, or any text. Contracts see its text.
#[derive(Drop)]
pub struct ReceiptHandle {
    form: HandleForm,
}

impl Model for ReceiptHandle {
    ghost use Rattle.std.specs.Prelude.{List, ℕ};
    ghost use Rattle.sqs_message.specs.Handles.{handle_text};

    ghost Value = { List ℕ };

    ghost view = { λ h. handle_text h.form };
}

impl ReceiptHandle {
    ghost use Rattle.std.specs.Prelude.{◌≡◌};
    ghost use Rattle.sqs_message.specs.Handles.{handle_text};
    ghost use Rattle.sqs_message.specs.Ids.{read_receipt};

    /// The source of the handle.
    pub fn form(&self) -> &HandleForm
        ensures { handle_text result.now ≡ self.now }
    {
        &self.form
    }

    /// The receipt that the handle's text stands for, if it is one.
    #[inline(always)]
    pub fn receipt(&self) -> Option<Receipt>
        ensures { result ≡ read_receipt self.now }
    {
        match &self.form {
            HandleForm::Made(receipt) => receipt.fitting(),
            HandleForm::Text(text) => match str::from_utf8(text.as_bytes()) {
                Ok(text) => Receipt::read(text),
                Err(_) => None,
            },
        }
    }
}

impl From<Receipt> for ReceiptHandle {
    ghost use Rattle.std.specs.Prelude.{◌≡◌};
    ghost use Rattle.sqs_message.specs.Ids.{receipt_text};

    ghost from_gives = { λ receipt handle. handle ≡ receipt_text receipt };

    fn from(receipt: Receipt) -> ReceiptHandle {
        ReceiptHandle {
            form: HandleForm::Made(receipt),
        }
    }
}

impl From<Text> for ReceiptHandle {
    ghost use Rattle.std.specs.Prelude.{◌≡◌};

    ghost from_gives = { λ text handle. handle ≡ text };

    fn from(text: Text) -> ReceiptHandle {
        ReceiptHandle {
            form: HandleForm::Text(text),
        }
    }
}
