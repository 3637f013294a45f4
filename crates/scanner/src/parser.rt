// The statement of a line, from its words and signs.
ghost use Rattle.std.specs.Prelude.{◌≡◌};
ghost use Rattle.std.specs.Option.{option_map};
ghost use Rattle.netlist_text.specs.Statements.{kind_of, names, declared, definition, statement};
ghost use Rattle.scanner.specs.Named.{name_of};
ghost use Rattle.scanner.specs.Scanned.{ahead};
ghost use Rattle.scanner.specs.Parsed.{up_to_eight, one_more, bracketed_of, Says, Parsed};

use crate::bytes::check_bytes;
use crate::name::Name;
use crate::scanner::Scanner;
use crate::statement::Statement;
use crate::token::{ScanFault, Token};
use circuit::{Kind, Operands};
use inline_list::Full;

fn kind_of(word: &[u8]) -> Option<Kind>
    ensures { result ≡ kind_of word.now }
{
    match word {
        b"AND" => Some(Kind::And),
        b"OR" => Some(Kind::Or),
        b"NAND" => Some(Kind::Nand),
        b"NOR" => Some(Kind::Nor),
        b"XOR" => Some(Kind::Xor),
        b"XNOR" => Some(Kind::Xnor),
        b"NOT" => Some(Kind::Not),
        _ => None,
    }
}

// These names with one more behind them, while there is room.
fn one_more(names: Result<Operands<Name>, Full>, name: Name) -> Result<Operands<Name>, Full>
    ensures { bracketed_of result ≡ one_more (bracketed_of names) (name_of name) }
{
    let mut names = names?;
    names.push(name)?;
    Ok(names)
}

// The names ahead, with commas between them, up to the bracket that ends the line, unless there are more than eight.
fn bracketed_names(from: Scanner<'_>) -> Option<Result<Operands<Name>, Full>>
    ensures { option_map bracketed_of result ≡ option_map up_to_eight (names (ahead from.entry)) }
{
    let mut tokens = from;
    let mut names = Ok(Operands::none(Name::none()));
    loop {
        let Some(Token::Word(word)) = tokens.next() else {
            return None;
        };
        let name = Name::try_from(word).ok()?;
        names = one_more(names, name);
        match tokens.next()? {
            Token::Comma(_) => {}
            Token::Close(_) => break,
            _ => return None,
        }
    }
    match tokens.next() {
        Some(_) => None,
        None => Some(names),
    }
}

// INPUT(name) or OUTPUT(name), from behind the bracket.
fn declaration(word: &[u8], from: Scanner<'_>) -> Option<Statement>
    ensures { Says result (declared word.now (names (ahead from.entry))) }
{
    let names = bracketed_names(from)?.ok()?;
    let [name] = names.as_slice() else {
        return None;
    };
    match word {
        b"INPUT" => Some(Statement::Input(*name)),
        b"OUTPUT" => Some(Statement::Output(*name)),
        _ => None,
    }
}

// name = KIND(name, ...), from behind the sign.
fn gate_definition(word: &[u8], from: Scanner<'_>) -> Option<Statement>
    ensures { Says result (definition word.now (ahead from.entry)) }
{
    let mut tokens = from;
    let Some(Token::Word(kind)) = tokens.next() else {
        return None;
    };
    let kind = kind_of(kind)?;
    let Some(Token::Open(_)) = tokens.next() else {
        return None;
    };
    let operands = bracketed_names(tokens)?;
    let name = Name::try_from(word).ok()?;
    Some(match operands {
        Ok(operands) => Statement::Gate {
            name,
            kind,
            operands,
        },
        Err(Full) => Statement::Crowded,
    })
}

fn line_statement(from: Scanner<'_>) -> Option<Statement>
    ensures { Says result (statement (ahead from.entry)) }
{
    let mut tokens = from;
    let Some(Token::Word(word)) = tokens.next() else {
        return None;
    };
    match tokens.next()? {
        Token::Open(_) => declaration(word, tokens),
        Token::Equals(_) => gate_definition(word, tokens),
        _ => None,
    }
}

// The statement of a line, or None if it has none of the three forms.
pub fn parse(line: &[u8]) -> Result<Option<Statement>, ScanFault>
    ensures { Parsed line.now result }
{
    check_bytes(line)?;
    Ok(line_statement(Scanner { line, at: 0 }))
}
