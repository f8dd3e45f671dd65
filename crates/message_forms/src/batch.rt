ghost use Rattle.std.specs.Prelude.{◌≡◌, ◌++◌};
ghost use Rattle.message_forms.specs.Batch.{batch_message};

/// What is signed for a group of `count` bodies whose hashes have this root. It takes no memory.
#[tactic(auto, unfolding(wire_parts::specs::Fields::u16_bytes, crate::specs::Batch::batch_message))]
pub fn batch_text(count: u16, root: &[u8; 32]) -> [u8; 36]
    ensures { result ≡ batch_message count root.now }
{
    let mut text = [0; 36];
    let (mark, rest) = text.split_at_mut(2);
    let (number, hash) = rest.split_at_mut(2);
    mark.copy_from_slice(&0x00f1u16.to_be_bytes());
    number.copy_from_slice(&count.to_be_bytes());
    hash.copy_from_slice(root);
    text
}
