ghost use Rattle.std.specs.Prelude.{ℕ, ◌≡◌, ◌≢◌, IfOk, IfErr, None, Err, Ok, Some, option_map, true};
ghost use Rattle.serde_json.specs.View.{view};
ghost use Rattle.wp_lengths.specs.Waves.{WavePicks};
ghost use Rattle.wp_cert.specs.declared.tree.Tree.{Tree as TreeData};
ghost use Rattle.wp_cert.specs.Text.{IsSame, PickAt, Tells, any_cart_said, cart_said, certificate_said, cuts_written};
ghost use Rattle.wp_cert.specs.Text.{form_said, is_within, loaded_cart, terms_said, written_terms_said};
ghost use Rattle.wp_cert.specs.Text.{parts_said, value_read, value_says, why_unread};
ghost use Rattle.wp_model.specs.Warehouse.{IsUpTo};
ghost use Rattle.wp_cert.specs.TextData.{HaveDualsWithin};
ghost use Rattle.wp_cert.specs.declared.text.form.Unread.TheVariants as unread;
ghost use Rattle.wp_cert.specs.declared.tree.CertWhy.TheVariants as why;

use crate::text::form::{Form, Unread, WrittenCart, WrittenTerms};
use crate::text::node::{has_keys, keys_in, nodes_of};
use crate::text::part::{list_at, read_at};
use crate::text::ranges::is_within;
use crate::text::wave::wave_of;
use crate::{CertFault, CertWhy, Certificate, Tree, WrittenCuts};
use serde_json::Value;
use std::alloc::Global;
use wp_graph::Layout;
use wp_model::Memory;

// The value of a text.
fn read_value(alloc: Global, text: &Vec<u8>) -> Result<Value, CertWhy>
    ensures value { IfOk result (λ value. value_read text.now.items ≡ Ok (view value)) }
    ensures refusal { IfErr result (λ refusal. refusal ≢ why.Memory → value_read text.now.items
        ≡ Err refusal) }
{
    match Value::from_slice(alloc, text) {
        Ok(value) => Ok(value),
        Err(error) => {
            if error.is_memory() {
                Err(CertWhy::Memory)
            } else {
                Err(CertWhy::NotJson)
            }
        }
    }
}

// The units of a cart, and what each order loads.
fn read_cart(alloc: Global, value: &Value) -> Result<WrittenCart, Unread>
    ensures ok { IfOk result (λ cart. cart_said (view value.now) ≡ Some cart) }
    ensures bad { IfErr result (λ fault. fault ≡ unread.BadShape → cart_said (view value.now)
        ≡ None) }
{
    let units = read_at(alloc, value, "units")?;
    let loads = list_at(alloc, value, "loads")?;
    Ok(WrittenCart { units, loads })
}

// The cart of a certificate: none where it has no more keys than its four parts, and one where it has two keys more.
fn read_any_cart(alloc: Global, value: &Value, third: bool) -> Result<Option<WrittenCart>, Unread>
    ensures ok { IfOk result (λ cart. any_cart_said third (view value.now) ≡ Some cart) }
    ensures bad { IfErr result (λ fault. fault ≡ unread.BadShape
        → any_cart_said third (view value.now) ≡ None) }
{
    if has_keys(value, keys_in(third, 4)) {
        Ok(None)
    } else if has_keys(value, keys_in(third, 6)) {
        Ok(Some(read_cart(alloc, value)?))
    } else {
        Err(Unread::BadShape)
    }
}

// What the third form has besides: the layout's step, and cuts.
fn read_terms(alloc: Global, value: &Value) -> Result<WrittenTerms, Unread>
    ensures ok { IfOk result (λ terms. written_terms_said (view value.now) ≡ Some terms) }
    ensures bad { IfErr result (λ fault. fault ≡ unread.BadShape
        → written_terms_said (view value.now) ≡ None) }
{
    let step = read_at(alloc, value, "step")?;
    let cuts = list_at(alloc, value, "cuts")?;
    Ok(WrittenTerms { step, cuts })
}

// A certificate with a step is of the third form.
fn read_any_terms(alloc: Global, value: &Value) -> Result<Option<WrittenTerms>, Unread>
    ensures ok { IfOk result (λ terms. terms_said (view value.now) ≡ Some terms) }
    ensures bad { IfErr result (λ fault. fault ≡ unread.BadShape → terms_said (view value.now)
        ≡ None) }
{
    if value.get("step").is_none() {
        Ok(None)
    } else {
        Ok(Some(read_terms(alloc, value)?))
    }
}

// The four parts of a certificate that has this cart or none, and is of the third form or not.
fn read_parts(
    alloc: Global,
    value: &Value,
    terms: Option<WrittenTerms>,
    cart: Option<WrittenCart>,
) -> Result<Form, Unread>
    ensures ok { IfOk result (λ form. parts_said terms cart (view value.now) ≡ Some form) }
    ensures bad { IfErr result (λ fault. fault ≡ unread.BadShape
        → parts_said terms cart (view value.now) ≡ None) }
{
    let version = read_at(alloc, value, "version")?;
    let capacity = read_at(alloc, value, "capacity")?;
    let orders = list_at(alloc, value, "orders")?;
    let nodes = nodes_of(alloc, value, terms.is_some())?;
    Ok(Form {
        version,
        capacity,
        cart,
        orders,
        nodes,
        terms,
    })
}

// What a value of the form of a certificate has.
fn read_form(alloc: Global, value: &Value) -> Result<Form, Unread>
    ensures ok { IfOk result (λ form. form_said (view value.now) ≡ Some form) }
    ensures bad { IfErr result (λ fault. fault ≡ unread.BadShape → form_said (view value.now)
        ≡ None) }
{
    let terms = read_any_terms(alloc, value)?;
    let cart = read_any_cart(alloc, value, terms.is_some())?;
    read_parts(alloc, value, terms, cart)
}

impl From<Unread> for CertWhy {
    ghost from_gives = { λ unread fault. fault ≡ why_unread unread };

    fn from(unread: Unread) -> CertWhy {
        match unread {
            Unread::BadShape => CertWhy::BadShape,
            Unread::Memory => CertWhy::Memory,
        }
    }
}

// What a value says, with its numbers in their ranges.
fn read_within(alloc: Global, value: &Value, layout: &Layout) -> Result<Form, CertWhy>
    ensures ok { IfOk result (λ form. value_says layout.now (view value.now) ≡ Ok form) }
    ensures within { IfOk result (λ form. is_within layout.now form ≡ true) }
    ensures refusal { IfErr result (λ refusal. refusal ≢ why.Memory
        → value_says layout.now (view value.now) ≡ Err refusal) }
{
    let form = read_form(alloc, value)?;
    if is_within(&form, layout) {
        Ok(form)
    } else {
        Err(CertWhy::OutOfRange)
    }
}

// What a text says, with its numbers in their ranges.
fn read_text(alloc: Global, text: &Vec<u8>, layout: &Layout) -> Result<Form, CertWhy>
    ensures ok { IfOk result (λ form. certificate_said layout.now text.now.items ≡ Ok form) }
    ensures within { IfOk result (λ form. is_within layout.now form ≡ true) }
    ensures refusal { IfErr result (λ refusal. refusal ≢ why.Memory
        → certificate_said layout.now text.now.items ≡ Err refusal) }
{
    let value = read_value(alloc, text)?;
    read_within(alloc, &value, layout)
}

// The cuts of a tree of the third form.
fn cuts_of(terms: Option<WrittenTerms>) -> Option<WrittenCuts>
    ensures { result ≡ cuts_written terms }
{
    match terms {
        None => None,
        Some(terms) => Some(terms.cuts),
    }
}

// The certificate of what a text says.
fn certificate_of(alloc: Global, layout: &Layout, form: Form) -> Result<Certificate, Memory>
    requires within { is_within layout.now form ≡ true }
    ensures layout { IfOk result (λ certificate. certificate.wave.layout ≡ layout.now) }
    ensures orders { IfOk result (λ certificate. PickAt certificate.wave.orders form.orders) }
    ensures cart { IfOk result (λ certificate. certificate.wave.cart
        ≡ option_map loaded_cart form.cart) }
    ensures capacity { IfOk result (λ certificate. certificate.capacity ≡ form.capacity) }
    ensures nodes { IfOk result (λ certificate. certificate.tree.nodes ≡ form.nodes) }
    ensures cuts { IfOk result (λ certificate. certificate.tree.cuts ≡ cuts_written form.terms) }
    ensures range { IfOk result (λ certificate. IsUpTo 8 certificate.capacity) }
    ensures duals { IfOk result (λ certificate. HaveDualsWithin certificate.tree) }
{
    let capacity = form.capacity as u32;
    let wave = wave_of(alloc, layout, &form)?;
    let tree = Tree {
        nodes: form.nodes,
        cuts: cuts_of(form.terms),
    };
    Ok(Certificate {
        wave,
        capacity,
        tree,
    })
}

// The certificate that a text says, or why it says none.
fn read_told(alloc: Global, text: &Vec<u8>, layout: &Layout) -> Result<Certificate, CertWhy>
    ensures told { IfOk result (λ read. Tells layout.now text.now.items read.wave read.capacity
        read.tree) }
    ensures range { IfOk result (λ read. IsUpTo 8 read.capacity) }
    ensures duals { IfOk result (λ read. HaveDualsWithin read.tree) }
    ensures refusal { IfErr result (λ refusal. refusal ≢ why.Memory
        → certificate_said layout.now text.now.items ≡ Err refusal) }
{
    let form = read_text(alloc, text, layout)?;
    match certificate_of(alloc, layout, form) {
        Ok(certificate) => Ok(certificate),
        Err(Memory) => Err(CertWhy::Memory),
    }
}

/// The certificate that a text says for a layout: its wave has that layout, its orders pick just at the slots of the
/// text, and it has the text's cart, if there is one. A certificate is refused at node 0, in this order, as `NotJson`
/// where the bytes aren't UTF-8 or `serde_json` reads no value in them, `BadShape` where the value isn't of a
/// certificate's form, and `OutOfRange` where the version isn't 3 with a step and cuts, and without them 1 without a
/// cart and 2 with one, the capacity isn't 1 to 8, there aren't 1 to 64 orders, an order has no slot or one that the
/// layout hasn't, a dual or price is above 1,000,000,000,000 sixtieths, the cart doesn't hold 1 to 40,000,000 units,
/// there isn't one load for each order, a load is above the units, or the step isn't the layout's. Of two members of one key the last counts. `Memory` comes where memory ran out. Of what is
/// printed of a wave, a capacity and a tree it gives them back.
pub fn read_certificate(
    alloc: Global,
    text: &Vec<u8>,
    layout: &Layout,
) -> Result<Certificate, CertFault>
    ensures told { IfOk result (λ read. Tells layout.now text.now.items read.wave read.capacity
        read.tree) }
    ensures range { IfOk result (λ read. IsUpTo 8 read.capacity) }
    ensures duals { IfOk result (λ read. HaveDualsWithin read.tree) }
    ensures reads_back { (wave : WavePicks) (capacity : ℕ) (tree : TreeData)
        → Tells layout.now text.now.items wave capacity tree
        → IfOk result (λ read. IsSame read.wave wave read.capacity capacity read.tree tree) }
    ensures refusal { IfErr result (λ fault. fault.why ≢ why.Memory
        → certificate_said layout.now text.now.items ≡ Err fault.why) }
    ensures node { IfErr result (λ fault. fault.node ≡ 0) }
{
    match read_told(alloc, text, layout) {
        Ok(certificate) => Ok(certificate),
        Err(why) => Err(CertFault { node: 0, why }),
    }
}
